// The largest sizes of the types, each from those of the types before it: number 33.
ghost use Rattle.std.specs.Prelude.{◌≡◌, ◌+◌, ◌*◌, ◌^◌, ◌<◌, ◌≤◌, true, length, take, slice_index};
ghost use Rattle.wire.specs.All.{all_below};
ghost use Rattle.table.specs.Layout.{most_types};
ghost use Rattle.table.specs.Entries.{type_at, member_at};
ghost use Rattle.types.specs.Inside.{Lying};
ghost use Rattle.types.specs.Sizes.{size_of, sum_from, sizes, fits_in_size, bytes_up_to, largest_below, largest_of};
ghost use Rattle.types.specs.Table.{sizes_ok};
ghost use Rattle.types.specs.Lawful.{Lawful, Smaller};

use crate::inside;
use table::{Entry, Sections, entries};

// The largest size of one type in bytes; none of a number that is no type's, and where it is above 65,536.
pub fn largest(table: &[u8], s: Sections, i: u16) -> Option<u32>
    ensures { result ≡ largest_of table.now s i }
{
    if entries::is_type(s, i) & (i < 256) {
        largest_below(table, s, i)
    } else {
        None
    }
}

// No type of the table can be too large, where every type keeps its rule.
pub(crate) fn all_fit(table: &[u8], s: Sections) -> bool
    requires { Lawful table.now s s.types.count }
    ensures { result ≡ sizes_ok table.now s }
{
    let n = s.types.count as usize;
    let mut room = [0u32; 256];
    fill::<true>(table, s, &mut room, n)
}

// From the sizes of the types below i, where none is too large.
fn largest_below(table: &[u8], s: Sections, i: u16) -> Option<u32>
    requires { i < most_types }
    ensures { result ≡ largest_below table.now s i }
{
    let n = i as usize;
    let mut room = [0u32; 256];
    if fill::<false>(table, s, &mut room, n) {
        let e = entries::type_at(table, s, i);
        bytes_up_to(size_of::<false>(table, s, &room[..n], e))
    } else {
        None
    }
}

fn bytes_up_to(size: u64) -> Option<u32>
    ensures { result ≡ bytes_up_to size }
{
    if size <= 65536 {
        Some(size as u32)
    } else {
        None
    }
}

// Writes the largest sizes of the types below n, up to the first that is too large; whether none is. Where those types are
// KEPT, known to keep their rules, nothing is tested to read them.
fn fill<const KEPT: bool>(table: &[u8], s: Sections, room: &mut [u32], n: usize) -> bool
    requires n_in_bounds { (n ≤ length room.old) × (n ≤ most_types) }
    requires lawful { KEPT ≡ true → Lawful table.now s n }
    ensures value { result ≡ all_below (fits_in_size table.now s) n }
    ensures room_after { result ≡ true → take n room.new ≡ sizes table.now s n }
{
    for i in 0..n {
        let e = type_of::<KEPT>(table, s, i as u16);
        let size = size_of::<KEPT>(table, s, &room[..i], e);
        if 65536 < size {
            return false;
        }
        room[i] = size as u32;
    }
    true
}

// The largest size of an entry, from the sizes of the types before it. In 64 bits it cannot wrap.
fn size_of<const KEPT: bool>(table: &[u8], s: Sections, known: &[u32], e: Entry) -> u64
    requires { KEPT ≡ true → e.kind ≡ 2 → Smaller table.now s (length known.now) e.first e.count }
    ensures { result ≡ size_of table.now s known.now e }
{
    let kind = e.kind;
    match kind {
        0 => leaf::width(e.of) as u64,
        1 => leaf::width(e.of) as u64,
        2 => sum::<KEPT>(table, s, known, e.first, e.count),
        3 => times(e.count, known_at::<false>(known, e.of)),
        4 => times(e.count, known_at::<false>(known, e.of)) + 4,
        _ => 0,
    }
}

// The sum over a record's members. Not of the entry: an entry that is passed on twice is copied through memory.
fn sum<const KEPT: bool>(table: &[u8], s: Sections, known: &[u32], first: u16, count: u16) -> u64
    requires { KEPT ≡ true → Smaller table.now s (length known.now) first count }
    ensures { result ≡ sum_from table.now s known.now first count }
{
    let mut total: u64 = 0;
    for k in 0..count {
        let member = member_of::<KEPT>(table, s, first as u32 + k as u32);
        total += known_at::<KEPT>(known, member) as u64;
    }
    total
}

fn type_of<const KEPT: bool>(table: &[u8], s: Sections, i: u16) -> Entry
    requires { KEPT ≡ true → Lying table.now s × (i < s.types.count) }
    ensures { result ≡ type_at table.now s i }
{
    if KEPT {
        inside::type_in(table, s, i)
    } else {
        entries::type_at(table, s, i)
    }
}

fn member_of<const KEPT: bool>(table: &[u8], s: Sections, i: u32) -> u16
    requires { KEPT ≡ true → Lying table.now s × (i < s.members.count) }
    ensures { result ≡ member_at table.now s i }
{
    if KEPT {
        inside::member_in(table, s, i)
    } else {
        entries::member_at(table, s, i)
    }
}

// The largest size of a type, as far as it is known.
fn known_at<const KEPT: bool>(known: &[u32], i: u16) -> u32
    requires { KEPT ≡ true → i < length known.now }
    ensures { result ≡ slice_index known.now i }
{
    let at = i as usize;
    if KEPT | (at < known.len()) {
        known[at]
    } else {
        0
    }
}

fn times(count: u16, size: u32) -> u64
    ensures { (result ≡ count * size) × (result < 2 ^ 48) }
{
    (count as u64) * (size as u64)
}
