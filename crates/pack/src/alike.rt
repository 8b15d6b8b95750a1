// Elements of an array that are leaves of one base code or of one enum: written as a run where all their words are there and taken,
// and else none of them: then it is for the walk to say which is refused. Those that have a plan are written by it.
ghost use Rattle.std.specs.Prelude.{◌≡◌, true, List, ℕ, ◌+◌, ◌-◌, ◌≤◌, ◌<◌, length};
ghost use Rattle.table.specs.declared.Entry.{Entry};
ghost use Rattle.walk.specs.declared.Place.{Place};
ghost use Rattle.walk.specs.declared.Met.TheVariants.{Leaf};
ghost use Rattle.walk.specs.Walk.{Step, Going};
ghost use Rattle.walk.specs.Tree.{Tree};
ghost use Rattle.pack.specs.Writing.{Writing, Writes, tree_written};
ghost use Rattle.pack.specs.JudgedRuns.{AllThere};
ghost use Rattle.pack.specs.Alike.{AllChosen, WritesLeaf, MetTree};

use crate::{by_plan, each, limits};
use table::{Entry, Sections};
use walk::{Met, Place};

// How far a run of leaves was written: up to which member or element, and where it ends.
#[derive(Clone, Copy)]
pub struct Reached {
    pub upto: u32,
    pub at: Place,
}

// Of one base code.
pub(crate) fn write_run(words: &[u64], out: &mut [u8], code: u16, count: u32, p: Place) -> Reached
    requires { Writing words.now p × (0 < length out.old → code < 13 → AllThere words.now code p.from count) }
    ensures { (f : ℕ → Place → List ℕ → Step) → Writes words.now code f
        → Going (Writing words.now) f count 0 p out.old result.upto result.at out.new }
{
    let left = words.len() - p.from;
    let many = count as usize;
    if left < many {
        return Reached { upto: 0, at: p };
    }
    if is_run(words, code, p.from, many, out.len()) {
        pack_leaves::store_run(words, out, code, many, p);
        let width = leaf::width(code);
        Reached {
            upto: count,
            at: Place {
                from: p.from + many,
                to: p.to + many * width,
            },
        }
    } else {
        Reached { upto: 0, at: p }
    }
}

// Whether the code takes every word. Where there is room to store in, the first walk has seen that a base code does.
fn is_run(words: &[u64], code: u16, from: usize, many: usize, room: usize) -> bool
    requires { (from + many ≤ length words.now) × (0 < room → code < 13 → AllThere words.now code from many) }
    ensures { result ≡ true → AllThere words.now code from many }
{
    if room == 0 {
        limits::judged(words, from, code, many)
    } else {
        code < walk::NO_BASE
    }
}

// The elements from the from-th on, by what was met at type c: enums, and those that have a plan.
pub(crate) fn write_met(
    table: &[u8],
    s: Sections,
    plans: &[u64],
    c: u16,
    met: Met,
    words: &[u64],
    out: &mut [u8],
    from: u32,
    count: u32,
    p: Place,
) -> Reached
    requires { Writing words.now p × (from ≤ count)
        × (0 < length out.old → (e : Entry) → met ≡ Leaf e → AllChosen words.now table.now s e p.from (count - from)) }
    ensures { (tr : Tree) → MetTree plans.now table.now s c met tr
        → Going (Writing words.now) (tree_written words.now tr) count from p out.old result.upto result.at out.new }
{
    match met {
        Met::Leaf(e) => write_leaves(table, s, e, words, out, from, count, p),
        Met::Members(_) => each::write_planned(table, plans, c, words, out, from, count, p),
        Met::Elements(_) => each::write_planned(table, plans, c, words, out, from, count, p),
        Met::Broken => Reached { upto: from, at: p },
    }
}

// Of one entry, a leaf's.
fn write_leaves(
    table: &[u8],
    s: Sections,
    e: Entry,
    words: &[u64],
    out: &mut [u8],
    from: u32,
    count: u32,
    p: Place,
) -> Reached
    requires { Writing words.now p × (from ≤ count)
        × (0 < length out.old → AllChosen words.now table.now s e p.from (count - from)) }
    ensures { (f : ℕ → Place → List ℕ → Step) → WritesLeaf words.now table.now s e f
        → Going (Writing words.now) f count from p out.old result.upto result.at out.new }
{
    let many = (count - from) as usize;
    if words.len() - p.from < many {
        return Reached { upto: from, at: p };
    }
    if takes_all(table, s, e, words, p.from, many, out.len()) {
        pack_leaves::store_run(words, out, e.of, many, p);
        let width = leaf::width(e.of);
        Reached {
            upto: count,
            at: Place {
                from: p.from + many,
                to: p.to + many * width,
            },
        }
    } else {
        Reached { upto: from, at: p }
    }
}

// Whether the entry's leaf takes every word. Where there is room to store in, the first walk has seen that it does.
fn takes_all(
    table: &[u8],
    s: Sections,
    e: Entry,
    words: &[u64],
    from: usize,
    many: usize,
    room: usize,
) -> bool
    requires { (from + many ≤ length words.now) × (0 < room → AllChosen words.now table.now s e from many) }
    ensures { result ≡ true → AllChosen words.now table.now s e from many }
{
    if 0 < room {
        return true;
    }
    if limits::judged(words, from, e.of, many) {
        if e.kind == table::ENUM {
            let at = s.values.at as u32 + 8 * (e.first as u32);
            by_plan::are_among(table, at, e.count, words, from, many)
        } else {
            true
        }
    } else {
        false
    }
}
