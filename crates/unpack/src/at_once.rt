// Leaves that are read at once, no entry being met for each: a record's members that are bases, and an array's elements that are
// bases or enums, have a plan, or are records of bases.
ghost use Rattle.std.specs.Prelude.{◌≡◌, List, ℕ, ◌+◌, ◌*◌, ◌≤◌, length};
ghost use Rattle.wire.specs.All.{all_below};
ghost use Rattle.table.specs.Leaf.{width};
ghost use Rattle.walk.specs.declared.Place.{Place};
ghost use Rattle.walk.specs.Walk.{Step, Goes, Going};
ghost use Rattle.unpack_leaves.specs.Steps.{Reads, ReadsCodes};
ghost use Rattle.unpack.specs.Reading.{Reading, member_read, element_read, entry_read, entry_takes};

use crate::each;
use table::{Entry, Sections};
use walk::{Met, Place};

// How many base codes of a record's members are read at once.
pub(crate) const MOST_CODES: usize = 64;

// How far a run of leaves was read: up to which member or element, and where it ends.
#[derive(Clone, Copy)]
pub struct Reached {
    pub upto: u32,
    pub at: Place,
}

// Reads a record's members from the k-th on, up to one that is no base, or whose leaf is refused, and no more at once than there
// is room for their codes: most members are bases.
pub(crate) fn read_bases(
    table: &[u8],
    s: Sections,
    i: u16,
    e: Entry,
    from: u32,
    payload: &[u8],
    words: &mut [u64],
    p: Place,
) -> Reached
    requires { Reading payload.now p × (from ≤ e.count) }
    ensures { (ps : List ℕ) → Going (Reading payload.now) (member_read payload.now ps table.now s i e) e.count
        from p words.old result.upto result.at words.new }
{
    let mut codes = [0u8; MOST_CODES];
    let n = walk::runs::base_codes(table, s, i, e, from, &mut codes);
    read_codes(payload, words, &codes[..n], from, p)
}

// Reads leaves of these base codes, up to one that is refused: they are the codes of members from the k-th on.
fn read_codes(payload: &[u8], words: &mut [u64], codes: &[u8], from: u32, p: Place) -> Reached
    requires { Reading payload.now p × (from + length codes.now ≤ 65535) }
    ensures from_le_upto { (from ≤ result.upto) × (result.upto ≤ from + length codes.now) × Reading payload.now result.at }
    ensures words_len_unchanged { length words.new ≡ length words.old }
    ensures by_index { (f : ℕ → Place → List ℕ → Step) → ReadsCodes payload.now codes.now from f
        → Goes f from p words.old result.upto result.at words.new }
{
    let part = unpack_leaves::judge_codes(payload, codes, p.from);
    unpack_leaves::store_codes(payload, words, &codes[..part.count], p);
    Reached {
        upto: from + part.count as u32,
        at: Place {
            from: part.from,
            to: p.to + part.count,
        },
    }
}

// Reads elements that are bases or enums, type c coming from type i: all of them, or none where one is not there or not allowed. Those
// that have a plan are read by it, and records of bases by their codes, up to one that is refused.
pub(crate) fn read_leaves(
    table: &[u8],
    s: Sections,
    plans: &[u64],
    i: u16,
    c: u16,
    payload: &[u8],
    words: &mut [u64],
    count: u32,
    p: Place,
) -> Reached
    requires { Reading payload.now p }
    ensures { Going (Reading payload.now) (element_read payload.now plans.now table.now s i c) count
        0 p words.old result.upto result.at words.new }
{
    let code = walk::base_at(table, s, i, c);
    if code < walk::NO_BASE {
        return read_run(payload, words, code, count, p);
    }
    match walk::meet(table, s, i, c) {
        Met::Leaf(e) => read_enums(table, s, e, payload, words, count, p),
        Met::Members(e) => each::read_alike(table, s, plans, c, e, payload, words, count, p),
        Met::Elements(e) => each::read_alike(table, s, plans, c, e, payload, words, count, p),
        Met::Broken => Reached { upto: 0, at: p },
    }
}

// The same of a leaf's entry.
fn read_enums(
    table: &[u8],
    s: Sections,
    e: Entry,
    payload: &[u8],
    words: &mut [u64],
    count: u32,
    p: Place,
) -> Reached
    requires { Reading payload.now p }
    ensures { Going (Reading payload.now) (entry_read payload.now table.now s e) count
        0 p words.old result.upto result.at words.new }
{
    let many = count as usize;
    let width = leaf::width(e.of);
    if wire::has_room(payload.len(), p.from, many * width) {
        if are_taken(table, s, e, payload, p.from, count) {
            unpack_leaves::store_run(payload, words, e.of, count, p);
            Reached {
                upto: count,
                at: Place {
                    from: p.from + many * width,
                    to: p.to + many,
                },
            }
        } else {
            Reached { upto: 0, at: p }
        }
    } else {
        Reached { upto: 0, at: p }
    }
}

// Whether the entry takes the words of so many leaves.
fn are_taken(table: &[u8], s: Sections, e: Entry, payload: &[u8], from: usize, count: u32) -> bool
    requires { from + count * width e.of ≤ length payload.now }
    ensures { result ≡ all_below (entry_takes payload.now table.now s e from) count }
{
    if unpack_leaves::judge_run(payload, from, e.of, count) {
        if e.kind == table::ENUM {
            let at = s.values.at as u32 + 8 * (e.first as u32);
            unpack_leaves::are_among(table, at, e.count, payload, from, e.of, count)
        } else {
            true
        }
    } else {
        false
    }
}

// Reads elements of one base code: all of them, or none where one is not there or not allowed.
fn read_run(payload: &[u8], words: &mut [u64], code: u16, count: u32, p: Place) -> Reached
    requires { Reading payload.now p }
    ensures { (f : ℕ → Place → List ℕ → Step) → Reads payload.now code f
        → Going (Reading payload.now) f count 0 p words.old result.upto result.at words.new }
{
    if unpack_leaves::judge_run(payload, p.from, code, count) {
        unpack_leaves::store_run(payload, words, code, count, p);
        let many = count as usize;
        Reached {
            upto: count,
            at: Place {
                from: p.from + many * leaf::width(code),
                to: p.to + many,
            },
        }
    } else {
        Reached { upto: 0, at: p }
    }
}
