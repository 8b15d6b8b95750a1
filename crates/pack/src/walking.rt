// Writing a payload: the writer of a record's members and the writer of an array's elements call each other, each by the kind
// of what it meets, and the type number falls at each entry.
ghost use Rattle.std.specs.Prelude.{◌≡◌, List, true, ℕ, ◌+◌, ◌≤◌, ◌<◌, length, get_or};
ghost use Rattle.leaf.specs.Choice.{takes};
ghost use Rattle.walk.specs.Codes.{codes_of};
ghost use Rattle.walk.specs.declared.Met.TheVariants.{Members, Elements};
ghost use Rattle.walk.specs.Walk.{start, answer, left, walk, begun, times, leaf_walk, Going};
ghost use Rattle.walk.specs.Planned.{type_by, walk_by};
ghost use Rattle.pack_leaves.specs.Stored.{all_taken, ends, laid};
ghost use Rattle.pack.specs.Writing.{writer, Writing, member_written};
ghost use Rattle.pack.specs.Sure.{Sure};

use crate::alike::Reached;
use crate::{alike, by_plan};
use table::{Entry, Sections};
use walk::{COUNT_BYTES, COUNT_WORDS, Met, Place, Walked};

// How many base codes of a record's members are got at once.
const MOST_CODES: usize = 64;

// Packs the words as a payload of type i, and stores the bytes of each where there is room for them.
pub(crate) fn write_once(
    table: &[u8],
    s: Sections,
    plans: &[u64],
    i: u16,
    words: &[u64],
    out: &mut [u8],
) -> Walked
    requires { Sure out.old (walk (writer words.now) (type_by plans.now table.now s i) start out.old) }
    ensures value { result ≡ answer (walk (writer words.now) (type_by plans.now table.now s i) start out.old) }
    ensures out_after { out.new
        ≡ left (walk (writer words.now) (type_by plans.now table.now s i) start out.old) }
{
    let p = Place { from: 0, to: 0 };
    match walk::look(table, s, i) {
        Met::Leaf(e) => write_leaf(table, s, e, words, out, p),
        Met::Members(e) => write_members(table, s, plans, i, e, words, out, p),
        Met::Elements(e) => write_elements(table, s, plans, i, e, words, out, p),
        Met::Broken => Walked::Stopped(types::RULE_BROKEN, p),
    }
}

// Writes the members of a record, whose type number is i and entry e.
#[cycle(write_elements_write_members)]
fn write_members(
    table: &[u8],
    s: Sections,
    plans: &[u64],
    i: u16,
    e: Entry,
    words: &[u64],
    out: &mut [u8],
    p: Place,
) -> Walked
    requires { Writing words.now p × Sure out.old (walk_by (writer words.now) plans.now table.now s i (Members e) p out.old) }
    ensures value { result ≡ answer (walk_by (writer words.now) plans.now table.now s i (Members e) p out.old) }
    ensures out_after { out.new
        ≡ left (walk_by (writer words.now) plans.now table.now s i (Members e) p out.old) }
{
    if walk::plans::is_planned(plans, i) {
        return by_plan::write_planned(table, plans, i, words, out, p);
    }
    let count = e.count as u32;
    let mut at = p;
    let mut k: u32 = 0;
    // By hand: a turn goes on behind the bases that it wrote and one member more, and a step that hangs on the data is no counting loop.
    while k < count {
        let run = write_bases(table, s, i, e, k, words, out, at);
        let next = run.upto;
        let here = run.at;
        if next == count {
            return Walked::Went(here);
        }
        let child = table::entries::member_at(table, s, e.first as u32 + next);
        let step = match walk::meet(table, s, i, child) {
            Met::Leaf(c) => write_leaf(table, s, c, words, out, here),
            Met::Members(c) => write_members(table, s, plans, child, c, words, out, here),
            Met::Elements(c) => write_elements(table, s, plans, child, c, words, out, here),
            Met::Broken => Walked::Stopped(types::RULE_BROKEN, here),
        };
        match step {
            Walked::Went(q) => {
                at = q;
                k = next + 1;
            }
            Walked::Stopped(n, q) => return Walked::Stopped(n, q),
        }
    }
    Walked::Went(at)
}

// Writes the elements of an array, whose type number is i and entry e, behind its count where it has one.
#[cycle(write_elements_write_members)]
fn write_elements(
    table: &[u8],
    s: Sections,
    plans: &[u64],
    i: u16,
    e: Entry,
    words: &[u64],
    out: &mut [u8],
    p: Place,
) -> Walked
    requires { Writing words.now p × Sure out.old (walk_by (writer words.now) plans.now table.now s i (Elements e) p out.old) }
    ensures value { result ≡ answer (walk_by (writer words.now) plans.now table.now s i (Elements e) p out.old) }
    ensures out_after { out.new
        ≡ left (walk_by (writer words.now) plans.now table.now s i (Elements e) p out.old) }
{
    if walk::plans::is_planned(plans, i) {
        return by_plan::write_planned(table, plans, i, words, out, p);
    }
    let child = e.of;
    match begin(words, out, e, p) {
        Walked::Stopped(n, q) => Walked::Stopped(n, q),
        Walked::Went(q) => {
            let count = times(words, e, p);
            let code = walk::base_at(table, s, i, child);
            let run = alike::write_run(words, out, code, count, q);
            let next = run.upto;
            let end = run.at;
            if next == count {
                return Walked::Went(end);
            }
            let met = walk::meet(table, s, i, child);
            let rest = alike::write_met(table, s, plans, child, met, words, out, next, count, end);
            let mut at = rest.at;
            for _ in rest.upto..count {
                let here = met;
                let step = match here {
                    Met::Leaf(c) => write_leaf(table, s, c, words, out, at),
                    Met::Members(c) => write_members(table, s, plans, child, c, words, out, at),
                    Met::Elements(c) => write_elements(table, s, plans, child, c, words, out, at),
                    Met::Broken => Walked::Stopped(types::RULE_BROKEN, at),
                };
                match step {
                    Walked::Went(q) => at = q,
                    Walked::Stopped(n, q) => return Walked::Stopped(n, q),
                }
            }
            Walked::Went(at)
        }
    }
}

// How many elements there are: a fixed array's length, or the count that stands at the place, and that was judged.
fn times(words: &[u64], e: Entry, p: Place) -> u32
    requires { times (writer words.now) e p ≤ e.count }
    ensures { result ≡ times (writer words.now) e p }
{
    if e.kind == table::FIXED {
        e.count as u32
    } else {
        word_at(words, p.from) as u32
    }
}

// What comes before the elements: nothing, or a count of at most the entry's.
fn begin(words: &[u64], out: &mut [u8], e: Entry, p: Place) -> Walked
    requires { Writing words.now p }
    ensures value { result ≡ answer (begun (writer words.now) e p out.old) }
    ensures out_after { out.new ≡ left (begun (writer words.now) e p out.old) }
{
    if e.kind == table::FIXED {
        return Walked::Went(p);
    }
    if p.from < words.len() {
        let count = word_at(words, p.from);
        if count <= e.count as u64 {
            leaf::put(out, p.to, leaf::UINT32, count);
            Walked::Went(Place {
                from: p.from + COUNT_WORDS,
                to: p.to + COUNT_BYTES,
            })
        } else {
            Walked::Stopped(walk::COUNT_OVER, p)
        }
    } else {
        Walked::Stopped(walk::ENDS_EARLY, p)
    }
}

// A base or an enum.
fn write_leaf(
    table: &[u8],
    s: Sections,
    e: Entry,
    words: &[u64],
    out: &mut [u8],
    p: Place,
) -> Walked
    requires { Writing words.now p × Sure out.old (leaf_walk (writer words.now) table.now s e p out.old) }
    ensures value { result ≡ answer (leaf_walk (writer words.now) table.now s e p out.old) }
    ensures out_after { out.new ≡ left (leaf_walk (writer words.now) table.now s e p out.old) }
{
    if p.from < words.len() {
        let word = word_at(words, p.from);
        if is_taken(table, s, e, word, out.len()) {
            let width = leaf::width(e.of);
            leaf::put(out, p.to, e.of, word);
            Walked::Went(Place {
                from: p.from + 1,
                to: p.to + width,
            })
        } else {
            Walked::Stopped(walk::NOT_ALLOWED, p)
        }
    } else {
        Walked::Stopped(walk::ENDS_EARLY, p)
    }
}

// Whether the leaf takes the word. Where there is room to store in, the first walk has seen that it does.
fn is_taken(table: &[u8], s: Sections, e: Entry, word: u64, room: usize) -> bool
    requires { 0 < room → takes table.now s e word ≡ true }
    ensures { result ≡ takes table.now s e word }
{
    if room == 0 {
        leaf::takes(table, s, e, word)
    } else {
        true
    }
}

// A word, or 0 past the end.
fn word_at(words: &[u64], at: usize) -> u64
    ensures { result ≡ get_or words.now at 0 }
{
    if at < words.len() { words[at] } else { 0 }
}

// Writes a record's members from the k-th on, up to one that is no base, or whose word is refused: most members are bases. Their
// codes are got first, so that the loop over the words reads nothing of the table.
fn write_bases(
    table: &[u8],
    s: Sections,
    i: u16,
    e: Entry,
    from: u32,
    words: &[u64],
    out: &mut [u8],
    p: Place,
) -> Reached
    requires { Writing words.now p × (from ≤ e.count)
        × (0 < length out.old → all_taken words.now (codes_of table.now s i e from 64) p.from ≡ true) }
    ensures { (ps : List ℕ) → Going (Writing words.now) (member_written words.now ps table.now s i e) e.count
        from p out.old result.upto result.at out.new }
{
    let mut codes = [0u8; MOST_CODES];
    let n = walk::runs::base_codes(table, s, i, e, from, &mut codes);
    if out.len() == 0 {
        let part = pack_leaves::judge_codes(words, &codes[..n], p.from);
        let count = part.count;
        Reached {
            upto: from + count as u32,
            at: Place {
                from: p.from + count,
                to: p.to + part.bytes,
            },
        }
    } else {
        let end = store_bases(words, out, &codes[..n], p);
        Reached {
            upto: from + n as u32,
            at: Place {
                from: p.from + n,
                to: end,
            },
        }
    }
}

// Stores leaves of these codes, whose words are all there. Answers where they end.
fn store_bases(words: &[u64], out: &mut [u8], codes: &[u8], p: Place) -> usize
    requires { Writing words.now p × (p.from + length codes.now ≤ length words.now) }
    ensures value { result ≡ ends codes.now p.to }
    ensures out_after { out.new ≡ laid words.now codes.now p out.old }
{
    let mut to = p.to;
    for (k, &base) in codes.iter().enumerate() {
        let code = base as u16;
        let from = p.from + k;
        leaf::put(out, to, code, words[from]);
        to = to + leaf::width(code);
    }
    to
}
