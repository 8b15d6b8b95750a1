// The rule that a type's entry keeps by itself (01, "The type table"): number 32.
ghost use Rattle.std.specs.Prelude.{◌≡◌};
ghost use Rattle.table.specs.Fields.{fields_ok};

use crate::{Entry, Sections};

// The fields of type i's entry, in constant time: what it points to is not looked at. Of the base codes an enum has int8, and
// int16 to uint64.
pub fn fields_ok(s: Sections, i: u16, e: Entry) -> bool
    ensures { result ≡ fields_ok s i e }
{
    let kind = e.kind;
    match kind {
        0 => (e.of <= 12) & (e.first == 0) & (e.count == 0),
        1 => ((e.of == 1) | ((3 <= e.of) & (e.of <= 10)))
            & (1 <= e.count)
            & (e.first as u32 + e.count as u32 <= s.values.count as u32),
        2 => (e.of == 0)
            & (1 <= e.count)
            & (e.first as u32 + e.count as u32 <= s.members.count as u32),
        3 => (e.of < i) & (e.first == 0) & (1 <= e.count),
        4 => (e.of < i) & (e.first == 0) & (1 <= e.count),
        _ => false,
    }
}
