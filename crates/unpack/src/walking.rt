// Reading a payload: the reader of a record's members and the reader of an array's elements call each other, each by the kind
// of what it meets, and the type number falls at each entry.
ghost use Rattle.std.specs.Prelude.{◌≡◌, [], ◌∷◌};
ghost use Rattle.walk.specs.declared.Met.TheVariants.{Members, Elements};
ghost use Rattle.wire.specs.Bytes.{written};
ghost use Rattle.walk.specs.Walk.{start, answer, left, walk, begun, times, leaf_walk};
ghost use Rattle.walk.specs.Planned.{type_by, walk_by};
ghost use Rattle.unpack.specs.Reading.{reader, Reading};

use crate::{at_once, by_plan};
use table::{Entry, Sections};
use walk::{COUNT_BYTES, COUNT_WORDS, Met, Place, Walked};

// Unpacks a payload as type i, and stores each word where there is room for it.
pub(crate) fn read_once(
    table: &[u8],
    s: Sections,
    plans: &[u64],
    i: u16,
    payload: &[u8],
    words: &mut [u64],
) -> Walked
    ensures value { result ≡ answer (walk (reader payload.now) (type_by plans.now table.now s i) start words.old) }
    ensures words_after { words.new
        ≡ left (walk (reader payload.now) (type_by plans.now table.now s i) start words.old) }
{
    let p = Place { from: 0, to: 0 };
    match walk::look(table, s, i) {
        Met::Leaf(e) => read_leaf(table, s, e, payload, words, p),
        Met::Members(e) => read_members(table, s, plans, i, e, payload, words, p),
        Met::Elements(e) => read_elements(table, s, plans, i, e, payload, words, p),
        Met::Broken => Walked::Stopped(types::RULE_BROKEN, p),
    }
}

// Reads the members of a record, whose type number is i and entry e.
#[cycle(read_elements_read_members)]
fn read_members(
    table: &[u8],
    s: Sections,
    plans: &[u64],
    i: u16,
    e: Entry,
    payload: &[u8],
    words: &mut [u64],
    p: Place,
) -> Walked
    requires { Reading payload.now p }
    ensures value { result ≡ answer (walk_by (reader payload.now) plans.now table.now s i (Members e) p words.old) }
    ensures words_after { words.new
        ≡ left (walk_by (reader payload.now) plans.now table.now s i (Members e) p words.old) }
{
    if walk::plans::is_planned(plans, i) {
        return by_plan::read_planned(table, plans, i, payload, words, p);
    }
    let count = e.count as u32;
    let mut at = p;
    let mut k: u32 = 0;
    // By hand: a step that hangs on the data, behind the member up to which the bases were read, is no counting loop.
    while k < count {
        let run = at_once::read_bases(table, s, i, e, k, payload, words, at);
        let next = run.upto;
        let here = run.at;
        if next == count {
            return Walked::Went(here);
        }
        let child = table::entries::member_at(table, s, e.first as u32 + next);
        let step = match walk::meet(table, s, i, child) {
            Met::Leaf(c) => read_leaf(table, s, c, payload, words, here),
            Met::Members(c) => read_members(table, s, plans, child, c, payload, words, here),
            Met::Elements(c) => read_elements(table, s, plans, child, c, payload, words, here),
            Met::Broken => Walked::Stopped(types::RULE_BROKEN, here),
        };
        match step {
            Walked::Went(q) => {
                at = q;
                k = next + 1;
            }
            Walked::Stopped(n, q) => return Walked::Stopped(n, q),
        }
    }
    Walked::Went(at)
}

// Reads the elements of an array, whose type number is i and entry e, behind its count where it has one.
#[cycle(read_elements_read_members)]
fn read_elements(
    table: &[u8],
    s: Sections,
    plans: &[u64],
    i: u16,
    e: Entry,
    payload: &[u8],
    words: &mut [u64],
    p: Place,
) -> Walked
    requires { Reading payload.now p }
    ensures value { result ≡ answer (walk_by (reader payload.now) plans.now table.now s i (Elements e) p words.old) }
    ensures words_after { words.new
        ≡ left (walk_by (reader payload.now) plans.now table.now s i (Elements e) p words.old) }
{
    if walk::plans::is_planned(plans, i) {
        return by_plan::read_planned(table, plans, i, payload, words, p);
    }
    let child = e.of;
    match begin(payload, words, e, p) {
        Walked::Stopped(n, q) => Walked::Stopped(n, q),
        Walked::Went(q) => {
            let count = times(payload, e, p);
            let run = at_once::read_leaves(table, s, plans, i, child, payload, words, count, q);
            let mut at = run.at;
            let first = run.upto;
            if first == count {
                return Walked::Went(at);
            }
            let met = walk::meet(table, s, i, child);
            for _ in first..count {
                let here = met;
                let step = match here {
                    Met::Leaf(c) => read_leaf(table, s, c, payload, words, at),
                    Met::Members(c) => read_members(table, s, plans, child, c, payload, words, at),
                    Met::Elements(c) => read_elements(
                        table, s, plans, child, c, payload, words, at,
                    ),
                    Met::Broken => Walked::Stopped(types::RULE_BROKEN, at),
                };
                match step {
                    Walked::Went(q) => at = q,
                    Walked::Stopped(n, q) => return Walked::Stopped(n, q),
                }
            }
            Walked::Went(at)
        }
    }
}

// How many elements there are: a fixed array's length, or the count that stands at the place.
fn times(payload: &[u8], e: Entry, p: Place) -> u32
    ensures { result ≡ times (reader payload.now) e p }
{
    if e.kind == table::FIXED {
        e.count as u32
    } else {
        wire::number_at::<u32>(payload, p.from)
    }
}

// What comes before the elements: nothing, or a count of at most the entry's.
fn begin(payload: &[u8], words: &mut [u64], e: Entry, p: Place) -> Walked
    requires { Reading payload.now p }
    ensures value { result ≡ answer (begun (reader payload.now) e p words.old) }
    ensures words_after { words.new ≡ left (begun (reader payload.now) e p words.old) }
{
    if e.kind == table::FIXED {
        return Walked::Went(p);
    }
    if wire::has_room(payload.len(), p.from, COUNT_BYTES) {
        let count = wire::number_at::<u32>(payload, p.from);
        if count <= e.count as u32 {
            put_word(words, p.to, count as u64);
            Walked::Went(Place {
                from: p.from + COUNT_BYTES,
                to: p.to + COUNT_WORDS,
            })
        } else {
            Walked::Stopped(walk::COUNT_OVER, p)
        }
    } else {
        Walked::Stopped(walk::ENDS_EARLY, p)
    }
}

// A base or an enum.
fn read_leaf(
    table: &[u8],
    s: Sections,
    e: Entry,
    payload: &[u8],
    words: &mut [u64],
    p: Place,
) -> Walked
    requires { Reading payload.now p }
    ensures value { result ≡ answer (leaf_walk (reader payload.now) table.now s e p words.old) }
    ensures words_after { words.new ≡ left (leaf_walk (reader payload.now) table.now s e p words.old) }
{
    let width = leaf::width(e.of);
    if wire::has_room(payload.len(), p.from, width) {
        let word = unpack_leaves::word_at(payload, p.from, e.of);
        if leaf::takes(table, s, e, word) {
            put_word(words, p.to, word);
            Walked::Went(Place {
                from: p.from + width,
                to: p.to + 1,
            })
        } else {
            Walked::Stopped(walk::NOT_ALLOWED, p)
        }
    } else {
        Walked::Stopped(walk::ENDS_EARLY, p)
    }
}

// Stores the word where there is room for it.
fn put_word(words: &mut [u64], at: usize, word: u64)
    ensures { words.new ≡ written words.old at (word ∷ []) }
{
    if at < words.len() {
        words[at] = word;
    }
}
