// A leaf on the wire and as a 64-bit word (01, "Payload and words"; 000, Table 6): the word of a boolean and of a signed number, the
// bytes that a word is, and whether an entry of the table takes a word. A code that is no base code has no bytes.
ghost use Rattle.std.specs.Prelude.{◌≡◌, ◌+◌, ◌-◌, ◌*◌, ◌^◌, ◌<◌, ◌≤◌, length, if◌then◌else◌, ◌==◌};
ghost use Rattle.wire.specs.All.{all_below};
ghost use Rattle.wire.specs.Bytes.{written};
ghost use Rattle.wire.specs.LowFirst.{swapped};
ghost use Rattle.leaf.specs.Forms.{truth, extended, carried, form_of};
ghost use Rattle.leaf.specs.Choice.{other_at, among_at, among, takes};

use crate::codes;
use table::{Entry, Sections};

// Half of the words that there are.
const HALF: u64 = 9223372036854775808;

// Writes the bytes of the leaf's word at `at`, where they fit.
pub fn put(s: &mut [u8], at: usize, code: u16, word: u64)
    ensures { s.new ≡ written s.old at (form_of code word) }
{
    let width = codes::width(code);
    match width {
        1 => wire::put_number::<u8>(s, at, (word % 256) as u8),
        2 => wire::put_number::<u16>(s, at, (word % 65536) as u16),
        4 => wire::put_number::<u32>(s, at, (word % 4294967296) as u32),
        8 => wire::put_number::<u64>(s, at, word),
        _ => {}
    }
}

// Whether the word is a value of the entry's leaf: in its base's range, and for an enum among its own values.
pub fn takes(table: &[u8], s: Sections, e: Entry, word: u64) -> bool
    ensures { result ≡ takes table.now s e word }
{
    if codes::allowed(e.of, word) {
        if e.kind == table::ENUM {
            among(table, s, e, word)
        } else {
            true
        }
    } else {
        false
    }
}

// Whether the word is one of the `count` values that stand at `at`. Where all of them are there, they are compared with no look at
// the table's end.
pub fn among_at(table: &[u8], at: u32, count: u16, word: u64) -> bool
    ensures { result ≡ among_at table.now at count word }
{
    if wire::has_room(table.len(), at as usize, 8 * (count as usize)) {
        among_whole(table, at as usize, count as usize, word)
    } else {
        among_cut(table, at, count, word)
    }
}

// 0 is false and any other byte true.
pub fn truth(x: u8) -> u64
    ensures { result ≡ truth x }
{
    if x == 0 { 0 } else { 1 }
}

// Numbers in two's complement, with their sign carried up to 64 bits. An int64 is its word as it stands.
pub fn signed8(x: u8) -> u64
    ensures { result ≡ extended 128 x }
{
    extended(x as u64, 128)
}

pub fn signed16(x: u16) -> u64
    ensures { result ≡ extended 32768 x }
{
    extended(x as u64, 32768)
}

pub fn signed32(x: u32) -> u64
    ensures { result ≡ extended 2147483648 x }
{
    extended(x as u64, 2147483648)
}

// A number below twice `half`, a power of two: with its sign turned over, and this as the highest of 64 bits turned over again. In this
// form the compiler sees that a sign is carried up, and has instructions for it; of a choice between two sums it does not.
fn extended(x: u64, half: u64) -> u64
    requires { (half ≤ 2 ^ 31) × (x < 2 * half) }
    ensures { result ≡ carried half x }
{
    ((x ^ half) + (HALF - half)) ^ HALF
}

// Whether the word is one of the enum's own values.
fn among(table: &[u8], s: Sections, e: Entry, word: u64) -> bool
    ensures { result ≡ among table.now s e word }
{
    among_at(
        table,
        s.values.at as u32 + 8 * (e.first as u32),
        e.count,
        word,
    )
}

// The word's bytes are turned once, so that no value's are. The values are compared in stretches, and left at the first that has the
// word; each is as long as all before it and four, so that what is compared in vain is no more than what had to be.
fn among_whole(table: &[u8], at: usize, count: usize, word: u64) -> bool
    requires { at + 8 * count ≤ length table.now }
    ensures { result ≡ among_at table.now at count word }
{
    let turned = wire::swap64(word);
    let mut k: usize = 0;
    // By hand: each stretch is longer than the one before it, and a step that hangs on what is behind is no counting loop.
    while k < count {
        let many = wire::least(k + 4, count - k);
        if hits_whole(table, at + 8 * k, turned, many) == 0 {
            k += many;
        } else {
            return true;
        }
    }
    false
}

// How many of the values that stand at `at` are the word that is turned: counted, and not left at the first, so that the compiler
// compares several at once.
fn hits_whole(table: &[u8], at: usize, turned: u64, count: usize) -> u64
    requires { at + 8 * count ≤ length table.now }
    ensures { (result == 0) ≡ all_below (other_at table.now at (swapped 3 turned)) count }
{
    let mut hits: u64 = 0;
    for k in 0..count {
        hits += hit_whole(table, at, turned, k);
    }
    hits
}

// 1 where the word that is turned is the k-th value.
fn hit_whole(table: &[u8], at: usize, turned: u64, k: usize) -> u64
    requires { at + 8 * k + 8 ≤ length table.now }
    ensures { (result ≤ 1) × (result ≡ (if other_at table.now at (swapped 3 turned) k then 0 else 1)) }
{
    if other_whole(table, at, turned, k) {
        0
    } else {
        1
    }
}

// Whether the word that is turned is not the k-th value. In a part of just its length the compiler sees that it is there.
fn other_whole(table: &[u8], at: usize, turned: u64, k: usize) -> bool
    requires { at + 8 * k + 8 ≤ length table.now }
    ensures { result ≡ other_at table.now at (swapped 3 turned) k }
{
    let place = at + 8 * k;
    wire::swapped_u64(&table[place..place + 8], 0) != turned
}

// Where a value may end past the end of the table. It stands by itself, so that `among_at` is short enough to be laid out wherever it is
// called.
#[cold]
#[inline(never)]
fn among_cut(table: &[u8], at: u32, count: u16, word: u64) -> bool
    ensures { result ≡ among_at table.now at count word }
{
    for k in 0..count {
        if !other_cut(table, at, word, k) {
            return true;
        }
    }
    false
}

// Whether the word is not the k-th value, which may not be there.
fn other_cut(table: &[u8], at: u32, word: u64, k: u16) -> bool
    ensures { result ≡ other_at table.now at word k }
{
    wire::number_at::<u64>(table, at as usize + 8 * (k as usize)) != word
}
