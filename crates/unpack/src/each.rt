// The elements of an array, each by the plan of their type or by the codes of its members: these are looked up once for all of them.
ghost use Rattle.std.specs.Prelude.{◌≡◌, true, ℕ, ◌+◌, ◌≤◌, length, take, List};
ghost use Rattle.walk.specs.Tree.{Tree};
ghost use Rattle.walk.specs.Planned.{plan_tree};
ghost use Rattle.walk.specs.Walk.{Going};
ghost use Rattle.unpack_leaves.specs.Leaves.{laid, whole_count};
ghost use Rattle.unpack.specs.Reading.{Reading, tree_read, record_of, Alike, Coded};
ghost use Rattle.unpack.specs.RunByRun.{is_single, Single, runs_read};

use crate::at_once::{MOST_CODES, Reached};
use crate::{bases, by_plan};
use table::{Entry, Sections};
use walk::{Place, Walked};

// Reads elements of type i, whose entry is e, up to one that is refused: by the type's plan or, of a record with none, by its members' codes.
// None where neither serves.
pub(crate) fn read_alike(
    table: &[u8],
    s: Sections,
    plans: &[u64],
    i: u16,
    e: Entry,
    payload: &[u8],
    words: &mut [u64],
    count: u32,
    p: Place,
) -> Reached
    requires { Reading payload.now p }
    ensures { (tr : Tree) → Alike plans.now table.now s i e tr
        → Going (Reading payload.now) (tree_read payload.now tr) count 0 p words.old result.upto result.at words.new }
{
    if walk::plans::is_planned(plans, i) {
        return read_each(table, plans, i, payload, words, count, p);
    }
    if e.kind == table::RECORD {
        read_records(table, s, i, e, payload, words, count, p)
    } else {
        Reached { upto: 0, at: p }
    }
}

fn read_each(
    table: &[u8],
    plans: &[u64],
    i: u16,
    payload: &[u8],
    words: &mut [u64],
    count: u32,
    p: Place,
) -> Reached
    requires { Reading payload.now p }
    ensures { Going (Reading payload.now) (tree_read payload.now (plan_tree table.now plans.now i)) count
        0 p words.old result.upto result.at words.new }
{
    let plan = walk::plans::plan_of(plans, i);
    let first = plan.first;
    let end = plan.first + plan.runs;
    read_by_runs(table, &plans[first..end], payload, words, count, p)
}

// The same of a plan's runs, so many times: by their codes where each is one leaf, since runs are for several.
fn read_by_runs(
    table: &[u8],
    runs: &[u64],
    payload: &[u8],
    words: &mut [u64],
    count: u32,
    p: Place,
) -> Reached
    requires { Reading payload.now p }
    ensures { Going (Reading payload.now) (runs_read payload.now table.now runs.now) count
        0 p words.old result.upto result.at words.new }
{
    let mut codes = [0u8; MOST_CODES];
    if are_single(runs, &mut codes) {
        let n = runs.len();
        read_coded(payload, words, &codes[..n], count, p)
    } else {
        read_times(table, runs, payload, words, count, p)
    }
}

// Whether each of these runs is one leaf that may be any of its code, and there is room for their codes; and the codes.
fn are_single(runs: &[u64], codes: &mut [u8]) -> bool
    ensures { (length codes.new ≡ length codes.old)
        × (result ≡ true → (length runs.now ≤ length codes.old)
        × Single runs.now codes.new (length runs.now)) }
{
    if codes.len() < runs.len() {
        return false;
    }
    for (k, &run) in runs.iter().enumerate() {
        if !is_single(run) {
            return false;
        }
        codes[k] = walk::plans::code_in(run) as u8;
    }
    true
}

fn is_single(run: u64) -> bool
    ensures { result ≡ is_single run }
{
    (walk::plans::many_in(run) == 1) & (walk::plans::values_in(run) == 0)
}

// Run by run.
fn read_times(
    table: &[u8],
    runs: &[u64],
    payload: &[u8],
    words: &mut [u64],
    count: u32,
    p: Place,
) -> Reached
    requires { Reading payload.now p }
    ensures { Going (Reading payload.now) (runs_read payload.now table.now runs.now) count
        0 p words.old result.upto result.at words.new }
{
    let mut at = p;
    for k in 0..count {
        match by_plan::judge_runs(table, runs, payload, at) {
            Walked::Went(q) => {
                by_plan::store_runs(payload, words, runs, at, q.to);
                at = q;
            }
            Walked::Stopped(_, _) => return Reached { upto: k, at },
        }
    }
    Reached { upto: count, at }
}

// Records all of whose members are bases: their codes are got from the table once for all of them. None where a member is no base.
fn read_records(
    table: &[u8],
    s: Sections,
    i: u16,
    e: Entry,
    payload: &[u8],
    words: &mut [u64],
    count: u32,
    p: Place,
) -> Reached
    requires { Reading payload.now p }
    ensures { (ps : List ℕ) → Going (Reading payload.now) (tree_read payload.now (record_of ps table.now s i e)) count
        0 p words.old result.upto result.at words.new }
{
    let mut codes = [0u8; MOST_CODES];
    let n = walk::runs::base_codes(table, s, i, e, 0, &mut codes);
    if n == e.count as usize {
        read_coded(payload, words, &codes[..n], count, p)
    } else {
        Reached { upto: 0, at: p }
    }
}

// So many times leaves of these codes, up to such a time of which one is refused.
fn read_coded(payload: &[u8], words: &mut [u64], codes: &[u8], count: u32, p: Place) -> Reached
    requires { Reading payload.now p }
    ensures { Coded payload.now codes.now count p words.old result.upto result.at words.new }
{
    let mut at = p;
    for k in 0..count {
        let part = unpack_leaves::judge_codes(payload, codes, at.from);
        if part.count < codes.len() {
            return Reached { upto: k, at };
        }
        store_codes(payload, words, codes, at);
        at = Place {
            from: part.from,
            to: at.to + codes.len(),
        };
    }
    Reached { upto: count, at }
}

// As `unpack_leaves::store_codes`, under the same laws: with a second caller that would be a call where a record's members are read.
fn store_codes(payload: &[u8], words: &mut [u64], codes: &[u8], p: Place)
    ensures { words.new
        ≡ laid payload.now (take (whole_count payload.now codes.now p.from) codes.now) p words.old }
{
    if payload.len() < p.from {
        return;
    }
    if words.len() <= p.to {
        return;
    }
    let room = wire::least(codes.len(), words.len() - p.to);
    store_within(payload, words, &codes[..room], p);
}

fn store_within(payload: &[u8], words: &mut [u64], codes: &[u8], p: Place)
    requires { (p.from ≤ length payload.now) × (p.to + length codes.now ≤ length words.old) }
    ensures { words.new
        ≡ laid payload.now (take (whole_count payload.now codes.now p.from) codes.now) p words.old }
{
    let mut from = p.from;
    for (k, &byte) in codes.iter().enumerate() {
        let code = byte as u16;
        let width = leaf::width(code);
        if payload.len() - from < width {
            return;
        }
        words[p.to + k] = bases::leaf_in(payload, from, code);
        from = from + width;
    }
}
