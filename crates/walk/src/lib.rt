// A walk over a type of a table, leaf by leaf from left to right (01, "Payload and words"): what it meets at an entry, how far it
// has come, and what it comes to. Unpacking and packing are such walks.
#![tactic(auto)]

pub mod plans;
pub mod runs;

ghost use Rattle.std.specs.Prelude.{◌≡◌};
ghost use Rattle.walk.specs.Tree.{by_kind, entry_in, met_in, look, meet, base_of, base_at};
ghost use Rattle.walk.specs.Whole.{fits};

use table::{Entry, Sections};

// 01, Numbers given back: what a walk can be refused with, and, behind it, what is left over.
pub const ENDS_EARLY: u32 = 40;

pub const LEFT_OVER: u32 = 41;

pub const NOT_ALLOWED: u32 = 42;

pub const COUNT_OVER: u32 = 43;

// An array's count: its bytes on the wire, and its words.
pub const COUNT_BYTES: usize = 4;

pub const COUNT_WORDS: usize = 1;

// The code that stands for no base: the base codes are below it.
pub const NO_BASE: u16 = 13;

// The last kind, and an entry of none.
const LAST_KIND: u64 = 4;

const NO_ENTRY: u64 = 18446744073709551615;

// A walk's place: how far it has come in what it reads, and in what it writes. One of the two counts words, so the leaves
// completed, array counts included.
#[derive(Clone, Copy)]
pub struct Place {
    pub from: usize,
    pub to: usize,
}

// What a walk comes to: the place behind what was walked, or the number of a refusal and the place of what was refused.
#[derive(Clone, Copy)]
pub enum Walked {
    Went(Place),
    Stopped(u32, Place),
}

// What a walk meets at an entry of the table: an entry that breaks a rule is not walked into.
#[derive(Clone, Copy)]
pub enum Met {
    Leaf(Entry),
    Members(Entry),
    Elements(Entry),
    Broken,
}

// At type c, coming from type i: its number has to be smaller.
pub fn meet(table: &[u8], s: Sections, i: u16, c: u16) -> Met
    ensures { result ≡ meet table.now s i c }
{
    if c < i {
        let word = looked(table, s, c);
        met_in(word)
    } else {
        Met::Broken
    }
}

// At type i itself. What is met is small, and laid out where it is called; the entry comes back as one number, since four that
// are stored and read as one would stall.
pub fn look(table: &[u8], s: Sections, i: u16) -> Met
    ensures { result ≡ look table.now s i }
{
    let word = looked(table, s, i);
    met_in(word)
}

// The entry of type i as one number, or one whose kind is none where it breaks a rule.
fn looked(table: &[u8], s: Sections, i: u16) -> u64
    ensures { met_in result ≡ look table.now s i }
{
    let e = table::entries::type_at(table, s, i);
    if table::fields_ok(s, i, e) {
        packed(e)
    } else {
        NO_ENTRY
    }
}

fn packed(e: Entry) -> u64
    ensures { entry_in result ≡ e }
{
    (e.kind as u64) * 281474976710656
        + (e.of as u64) * 4294967296
        + (e.first as u64) * 65536
        + (e.count as u64)
}

fn met_in(word: u64) -> Met
    ensures { result ≡ met_in word }
{
    if LAST_KIND < word / 281474976710656 {
        return Met::Broken;
    }
    by_kind(entry_in(word))
}

fn entry_in(word: u64) -> Entry
    ensures { result ≡ entry_in word }
{
    Entry {
        kind: (word / 281474976710656) as u16,
        of: (word / 4294967296 % 65536) as u16,
        first: (word / 65536 % 65536) as u16,
        count: (word % 65536) as u16,
    }
}

fn by_kind(e: Entry) -> Met
    ensures { result ≡ by_kind e }
{
    if e.kind <= table::ENUM {
        return Met::Leaf(e);
    }
    if e.kind == table::RECORD {
        return Met::Members(e);
    }
    Met::Elements(e)
}

// The base code of type c where, coming from type i, a base is met there: most leaves are one, and this is cheaper than `meet`.
pub fn base_at(table: &[u8], s: Sections, i: u16, c: u16) -> u16
    ensures { result ≡ base_at table.now s i c }
{
    if i <= c {
        return NO_BASE;
    }
    base_of(table::entries::type_at(table, s, c))
}

fn base_of(e: Entry) -> u16
    ensures { result ≡ base_of e }
{
    if (e.kind == table::BASE) & (e.of < NO_BASE) & (e.first == 0) & (e.count == 0) {
        e.of
    } else {
        NO_BASE
    }
}

// Whether a walk that came to this place has read all, and there is room for what it gives: only then is any of it stored.
pub fn fits(q: Place, len: usize, room: usize) -> bool
    ensures { result ≡ fits len room q }
{
    (len <= q.from) & (q.to <= room)
}
