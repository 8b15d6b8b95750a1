// The rules of the operations (01, "The type table"; 02, 1), number 32, and whether one is versioned data. Each goes from entry to
// entry by its place, and never from the first one again.
ghost use Rattle.std.specs.Prelude.{◌≡◌};
ghost use Rattle.operations.specs.Rules.{type_or_none, fields_ok, operations_ok, has_data};

use crate::{EVENT, Operation, VERSIONED_DATA, entries};

// No operation has the ID that pulls all.
const NO_ID: u32 = 0xFFFF_FFFF;

// Every operation keeps its rule, in a table of so many types.
pub fn are_good(table: &[u8], at: u16, count: u16, types: u16) -> bool
    ensures { result ≡ operations_ok table.now at count types }
{
    let mut place = at as usize;
    let mut last: u32 = 0;
    for i in 0..count {
        let o = entries::operation_at(table, place);
        if !((i == 0) | (last < o.id)) {
            return false;
        }
        if !fields_ok(types, o) {
            return false;
        }
        last = o.id;
        place += entries::width_of(o.kind);
    }
    true
}

pub fn has_data(table: &[u8], at: u16, count: u16) -> bool
    ensures { result ≡ has_data table.now at count }
{
    let mut place = at as usize;
    for _i in 0..count {
        let kind = entries::kind_at(table, place);
        if kind == VERSIONED_DATA {
            return true;
        }
        place += entries::width_of(kind);
    }
    false
}

// By the kind, since one kind's tests are enough.
fn fields_ok(types: u16, o: Operation) -> bool
    ensures { result ≡ fields_ok types o }
{
    if NO_ID <= o.id {
        return false;
    }
    if o.kind <= VERSIONED_DATA {
        if o.carries < types {
            true
        } else {
            (o.kind == EVENT) & (o.carries == entries::NO_TYPE)
        }
    } else if entries::is_wide(o.kind) {
        if type_or_none(types, o.carries) {
            type_or_none(types, o.responds)
        } else {
            false
        }
    } else {
        false
    }
}

fn type_or_none(types: u16, number: u16) -> bool
    ensures { result ≡ type_or_none types number }
{
    if number < types {
        true
    } else {
        number == entries::NO_TYPE
    }
}
