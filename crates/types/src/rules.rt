// The rules of a type's entry and of what it points to: number 32. Members and values that no type points to are not
// looked at.
ghost use Rattle.std.specs.Prelude.{◌≡◌, ◌+◌, ◌<◌, ◌≤◌};
ghost use Rattle.wire.specs.All.{all_below};
ghost use Rattle.types.specs.Inside.{Lying};
ghost use Rattle.types.specs.Rules.{type_ok, members_ok};
ghost use Rattle.types.specs.Passes.{quick_ok, enum_ok};

use crate::{alike, enums, inside, values};
use table::{Entry, Sections};

// Every type of the table keeps its rule. The values of most enums rise, and then they are distinct; where some do not, all are
// compared at the end.
pub(crate) fn types_ok(table: &[u8], s: Sections) -> bool
    requires { Lying table.now s }
    ensures { result ≡ all_below (type_ok table.now s) s.types.count }
{
    let mut rise = true;
    for i in 0..s.types.count {
        if quick_ok(table, s, i) {
            continue;
        }
        if !enum_ok(table, s, i) {
            return false;
        }
        rise = false;
    }
    if rise {
        true
    } else {
        alike::all_distinct(table, s)
    }
}

// A type that keeps its rule, as is seen in one pass; not an enum whose values do not rise.
fn quick_ok(table: &[u8], s: Sections, i: u16) -> bool
    requires { Lying table.now s × (i < s.types.count) }
    ensures { result ≡ quick_ok table.now s i }
{
    let e = inside::type_in(table, s, i);
    if table::fields_ok(s, i, e) {
        let kind = e.kind;
        match kind {
            1 => values::in_order(table, s, e),
            2 => members_ok(table, s, i, e),
            _ => true,
        }
    } else {
        false
    }
}

// An enum that keeps its rule, but that its values may be alike.
fn enum_ok(table: &[u8], s: Sections, i: u16) -> bool
    requires { Lying table.now s × (i < s.types.count) }
    ensures { result ≡ enum_ok table.now s i }
{
    let e = inside::type_in(table, s, i);
    if table::fields_ok(s, i, e) & (e.kind == 1) {
        enums::values_allowed(table, s, e)
    } else {
        false
    }
}

fn members_ok(table: &[u8], s: Sections, i: u16, e: Entry) -> bool
    requires { Lying table.now s × (e.first + e.count ≤ s.members.count) }
    ensures { result ≡ members_ok table.now s i e }
{
    for k in 0..e.count {
        if i <= inside::member_in(table, s, e.first as u32 + k as u32) {
            return false;
        }
    }
    true
}
