// Whether the values of each enum are distinct, in any order. Each value of the table is compared with those before it once,
// however many enums share it; an enum's values are distinct if for none the last one alike is the enum's too.
ghost use Rattle.std.specs.Prelude.{◌≡◌, ◌+◌, ◌≤◌, length};
ghost use Rattle.wire.specs.All.{all_below};
ghost use Rattle.table.specs.Layout.{most_values};
ghost use Rattle.types.specs.Alike.{last_alike, Alikes, unlike_in, enum_apart, all_apart};

use table::{MOST_VALUES, Sections, entries};

// Whether the values of each enum lie in their section, which is no longer than it may be, and are distinct.
pub(crate) fn all_distinct(table: &[u8], s: Sections) -> bool
    ensures { result ≡ all_apart table.now s }
{
    if s.values.count <= MOST_VALUES {
        all_apart(table, s)
    } else {
        false
    }
}

fn all_apart(table: &[u8], s: Sections) -> bool
    requires { s.values.count ≤ most_values }
    ensures { result ≡ all_below (enum_apart table.now s) s.types.count }
{
    let mut room = [0u16; 1024];
    fill(table, s, &mut room);
    enums_distinct(table, s, &room)
}

fn fill(table: &[u8], s: Sections, room: &mut [u16])
    requires { s.values.count ≤ length room.old }
    ensures { Alikes table.now s s.values.count room.new }
{
    for k in 0..s.values.count {
        room[k as usize] = last_alike(table, s, k);
    }
}

// The number behind that of the last value before the k-th that is like it, or 0.
fn last_alike(table: &[u8], s: Sections, k: u16) -> u16
    ensures { result ≡ last_alike table.now s k }
{
    let word = entries::value_at(table, s, k as u32);
    for j in (0..k).rev() {
        if entries::value_at(table, s, j as u32) == word {
            return j + 1;
        }
    }
    0
}

fn enums_distinct(table: &[u8], s: Sections, room: &[u16]) -> bool
    requires { (s.values.count ≤ length room.now) × Alikes table.now s s.values.count room.now }
    ensures { result ≡ all_below (enum_apart table.now s) s.types.count }
{
    (0..s.types.count).all(|i| enum_distinct(table, s, room, i))
}

fn enum_distinct(table: &[u8], s: Sections, room: &[u16], i: u16) -> bool
    requires { (s.values.count ≤ length room.now) × Alikes table.now s s.values.count room.now }
    ensures { result ≡ enum_apart table.now s i }
{
    let e = entries::type_at(table, s, i);
    if e.kind == 1 {
        if e.first as u32 + e.count as u32 <= s.values.count as u32 {
            unlike_in(room, e.first, e.count)
        } else {
            false
        }
    } else {
        true
    }
}

fn unlike_in(room: &[u16], first: u16, count: u16) -> bool
    requires { first + count ≤ length room.now }
    ensures { result ≡ all_below (unlike_in room.now first) count }
{
    let from = first as usize;
    room[from..from + count as usize]
        .iter()
        .all(|last| *last <= first)
}
