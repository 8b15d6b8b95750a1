// What stands in the i-th entry of each section but the last (`operations`). The look-ups answer for any bytes, sections and number: a byte past the
// end reads as 0.
ghost use Rattle.std.specs.Prelude.{◌≡◌};
ghost use Rattle.table.specs.Entries.{type_at, member_at, value_at, is_type};

use crate::{Entry, Sections, layout};

// Four 16-bit numbers that are read as one: one test of the bytes in place of four.
pub fn type_at(table: &[u8], s: Sections, i: u16) -> Entry
    ensures { result ≡ type_at table.now s i }
{
    let word = wire::number_at::<u64>(table, layout::type_place(s, i as u32));
    Entry {
        kind: (word / 281474976710656) as u16,
        of: (word / 4294967296 % 65536) as u16,
        first: (word / 65536 % 65536) as u16,
        count: (word % 65536) as u16,
    }
}

// Whether the table has a type of that number.
pub fn is_type(s: Sections, i: u16) -> bool
    ensures { result ≡ is_type s i }
{
    i < s.types.count
}

pub fn member_at(table: &[u8], s: Sections, i: u32) -> u16
    ensures { result ≡ member_at table.now s i }
{
    wire::number_at::<u16>(table, layout::member_place(s, i))
}

pub fn value_at(table: &[u8], s: Sections, i: u32) -> u64
    ensures { result ≡ value_at table.now s i }
{
    wire::number_at::<u64>(table, layout::value_place(s, i))
}
