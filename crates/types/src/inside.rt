// What stands in the entries of sections that lie within the bytes: in a part of just a number's length the compiler sees that its
// bytes are there, and makes one load of each. `table::entries` answers for any sections.
ghost use Rattle.std.specs.Prelude.{◌≡◌, ◌+◌, ◌<◌, ◌≤◌, length};
ghost use Rattle.wire.specs.Bytes.{number};
ghost use Rattle.table.specs.Entries.{type_at, member_at, value_at};
ghost use Rattle.types.specs.Inside.{Lying};

use table::{Entry, Sections, layout};

pub(crate) fn type_in(table: &[u8], s: Sections, i: u16) -> Entry
    requires { Lying table.now s × (i < s.types.count) }
    ensures { result ≡ type_at table.now s i }
{
    let at = s.types.at as usize + (layout::TYPE_WIDTH as usize) * (i as usize);
    Entry {
        kind: u16_in(table, at),
        of: u16_in(table, at + 2),
        first: u16_in(table, at + 4),
        count: u16_in(table, at + 6),
    }
}

pub(crate) fn member_in(table: &[u8], s: Sections, i: u32) -> u16
    requires { Lying table.now s × (i < s.members.count) }
    ensures { result ≡ member_at table.now s i }
{
    let at = s.members.at as usize + (layout::MEMBER_WIDTH as usize) * (i as usize);
    u16_in(table, at)
}

pub(crate) fn value_in(table: &[u8], s: Sections, i: u32) -> u64
    requires { Lying table.now s × (i < s.values.count) }
    ensures { result ≡ value_at table.now s i }
{
    let at = s.values.at as usize + (layout::VALUE_WIDTH as usize) * (i as usize);
    wire::whole_at::<u64>(&table[at..at + 8], 0)
}

fn u16_in(table: &[u8], at: usize) -> u16
    requires { at + 2 ≤ length table.now }
    ensures { result ≡ number 1 table.now at }
{
    wire::whole_at::<u16>(&table[at..at + 2], 0)
}
