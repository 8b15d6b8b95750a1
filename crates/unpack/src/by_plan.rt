// The leaves of a payload by the runs of a plan (02, request 13): judged run by run, with no table but for an enum's values, then
// stored.
ghost use Rattle.std.specs.Prelude.{◌≡◌, [], ◌+◌, ◌*◌, ◌≤◌, length};
ghost use Rattle.wire.specs.All.{all_below};
ghost use Rattle.table.specs.Leaf.{width};
ghost use Rattle.walk.specs.declared.Place.{Place};
ghost use Rattle.walk.specs.Runs.{code_in, many_in, taken_by, run_tree, runs_tree};
ghost use Rattle.walk.specs.Walk.{on, answer, left, through, walk};
ghost use Rattle.walk.specs.Planned.{plan_tree};
ghost use Rattle.unpack_leaves.specs.OneCode.{filled, run_there};
ghost use Rattle.unpack.specs.Reading.{reader, Reading};
ghost use Rattle.unpack.specs.RunByRun.{is_taken, run_good, leaf_read, run_read, words_of, stored_upto, Within};

use crate::bases;
use walk::{Place, Walked};

// Judges the leaves of these runs: a run after another, and from one that is not all good leaf by leaf.
pub(crate) fn judge_runs(table: &[u8], runs: &[u64], payload: &[u8], p: Place) -> Walked
    requires { Reading payload.now p }
    ensures { result ≡ answer (walk (reader payload.now) (runs_tree table.now runs.now) p []) }
{
    let mut from = p.from;
    let mut to = p.to;
    for (k, &run) in runs.iter().enumerate() {
        let many = walk::plans::many_in(run) as usize;
        let bytes = many * leaf::width(walk::plans::code_in(run));
        if !is_good(table, run, payload, from, bytes) {
            return judge_rest(table, runs, k, payload, Place { from, to });
        }
        from = from + bytes;
        to = to + many;
    }
    Walked::Went(Place { from, to })
}

// Whether the leaves of a run, which have so many bytes, are all there, allowed and taken.
pub(crate) fn is_good(table: &[u8], run: u64, payload: &[u8], from: usize, bytes: usize) -> bool
    requires { (from ≤ length payload.now) × (bytes ≡ many_in run * width (code_in run)) }
    ensures { result ≡ run_good table.now payload.now run from }
{
    if are_allowed(run, payload, from, bytes) {
        are_taken(table, run, payload, from)
    } else {
        false
    }
}

// Whether they are there and allowed: of most codes every word is. A slice that goes on to a call is made anew there: handed on as it
// came, it would be kept in memory, and waited for, where no call is made too.
fn are_allowed(run: u64, payload: &[u8], from: usize, bytes: usize) -> bool
    requires { (from ≤ length payload.now) × (bytes ≡ many_in run * width (code_in run)) }
    ensures { result ≡ run_there payload.now (code_in run) from (many_in run) }
{
    let code = walk::plans::code_in(run);
    if leaf::range_of(code).every {
        return bytes <= payload.len() - from;
    }
    let all = payload.len();
    unpack_leaves::judge_run(&payload[..all], from, code, walk::plans::many_in(run))
}

// Whether the words of a run's leaves are all among its values, where it has some.
fn are_taken(table: &[u8], run: u64, payload: &[u8], from: usize) -> bool
    requires { from + many_in run * width (code_in run) ≤ length payload.now }
    ensures { result ≡ all_below (is_taken table.now payload.now run from) (many_in run) }
{
    let values = walk::plans::values_in(run);
    if values == 0 {
        return true;
    }
    let code = walk::plans::code_in(run);
    let many = walk::plans::many_in(run);
    let at = walk::plans::place_in(run);
    let all = table.len();
    let len = payload.len();
    unpack_leaves::are_among(&table[..all], at, values, &payload[..len], from, code, many)
}

// Whether a run takes the word, of those that its code allows: any, where it has no values.
fn is_taken(table: &[u8], run: u64, word: u64) -> bool
    ensures { result ≡ taken_by table.now run word }
{
    let values = walk::plans::values_in(run);
    if values == 0 {
        return true;
    }
    leaf::among_at(table, walk::plans::place_in(run), values, word)
}

// Judges the leaves of the runs from the k-th on, leaf by leaf: which is refused, and with what.
pub(crate) fn judge_rest(
    table: &[u8],
    runs: &[u64],
    first: usize,
    payload: &[u8],
    p: Place,
) -> Walked
    requires { Reading payload.now p × (first ≤ length runs.now) }
    ensures { (o : Place) → through first (run_read payload.now table.now runs.now) o [] ≡ on p []
        → result ≡ answer (walk (reader payload.now) (runs_tree table.now runs.now) o []) }
{
    let mut at = p;
    for k in first..runs.len() {
        match judge_leaves(table, runs[k], payload, at) {
            Walked::Went(q) => at = q,
            Walked::Stopped(n, q) => return Walked::Stopped(n, q),
        }
    }
    Walked::Went(at)
}

// The same of one run.
fn judge_leaves(table: &[u8], run: u64, payload: &[u8], p: Place) -> Walked
    requires { Reading payload.now p }
    ensures { result ≡ answer (walk (reader payload.now) (run_tree table.now run) p []) }
{
    let many = walk::plans::many_in(run);
    let mut at = p;
    for _ in 0..many {
        match judge_leaf(table, run, payload, at) {
            Walked::Went(q) => at = q,
            Walked::Stopped(n, q) => return Walked::Stopped(n, q),
        }
    }
    Walked::Went(at)
}

// And of one leaf of it.
fn judge_leaf(table: &[u8], run: u64, payload: &[u8], p: Place) -> Walked
    requires { Reading payload.now p }
    ensures { result ≡ answer (leaf_read payload.now table.now run 0 p []) }
{
    let code = walk::plans::code_in(run);
    let width = leaf::width(code);
    if wire::has_room(payload.len(), p.from, width) {
        let word = unpack_leaves::word_at(payload, p.from, code);
        if leaf::allowed(code, word) & is_taken(table, run, word) {
            Walked::Went(Place {
                from: p.from + width,
                to: p.to + 1,
            })
        } else {
            Walked::Stopped(walk::NOT_ALLOWED, p)
        }
    } else {
        Walked::Stopped(walk::ENDS_EARLY, p)
    }
}

// Stores the words of the leaves that stand before the word `upto`, each where there is room for it: where there is room for none, as
// in a walk that only judges, the runs are not gone over.
pub(crate) fn store_runs(payload: &[u8], words: &mut [u64], runs: &[u64], p: Place, upto: usize)
    requires { (p.to ≤ upto) × Within payload.now runs.now p upto }
    ensures { words.new
        ≡ stored_upto payload.now runs.now p upto (length runs.now) words.old }
{
    if words.len() <= p.to {
        return;
    }
    let mut from = p.from;
    let mut to = p.to;
    for &run in runs {
        let code = walk::plans::code_in(run);
        let many = wire::least(walk::plans::many_in(run) as usize, upto - to);
        store_leaves(payload, words, code, many as u32, Place { from, to });
        from = from + many * leaf::width(code);
        to = to + many;
    }
}

// The words of so many leaves of one code, each where there is room for it; of one leaf with no loop.
fn store_leaves(payload: &[u8], words: &mut [u64], code: u16, count: u32, p: Place)
    requires { p.from + count * width code ≤ length payload.now }
    ensures { words.new ≡ filled payload.now code p count words.old }
{
    if count == 1 {
        store_leaf(payload, words, code, p);
    } else {
        let len = payload.len();
        unpack_leaves::store_run(&payload[..len], words, code, count, p);
    }
}

fn store_leaf(payload: &[u8], words: &mut [u64], code: u16, p: Place)
    requires { p.from + width code ≤ length payload.now }
    ensures { words.new ≡ filled payload.now code p 1 words.old }
{
    let to = p.to;
    if to < words.len() {
        words[to] = bases::leaf_in(payload, p.from, code);
    }
}

// Reads the leaves of these runs, and stores the words of those that were read.
pub(crate) fn read_runs(
    table: &[u8],
    runs: &[u64],
    payload: &[u8],
    words: &mut [u64],
    p: Place,
) -> Walked
    requires { Reading payload.now p }
    ensures value { result ≡ answer (walk (reader payload.now) (runs_tree table.now runs.now) p words.old) }
    ensures words_after { words.new
        ≡ left (walk (reader payload.now) (runs_tree table.now runs.now) p words.old) }
{
    let walked = judge_runs(table, runs, payload, p);
    store_runs(payload, words, runs, p, words_of(walked));
    walked
}

fn words_of(walked: Walked) -> usize
    ensures { result ≡ words_of walked }
{
    match walked {
        Walked::Went(q) => q.to,
        Walked::Stopped(_, q) => q.to,
    }
}

// Reads the leaves of type i by its plan.
pub(crate) fn read_planned(
    table: &[u8],
    plans: &[u64],
    i: u16,
    payload: &[u8],
    words: &mut [u64],
    p: Place,
) -> Walked
    requires { Reading payload.now p }
    ensures value { result ≡ answer (walk (reader payload.now) (plan_tree table.now plans.now i) p words.old) }
    ensures words_after { words.new
        ≡ left (walk (reader payload.now) (plan_tree table.now plans.now i) p words.old) }
{
    let plan = walk::plans::plan_of(plans, i);
    let first = plan.first;
    let end = plan.first + plan.runs;
    read_runs(table, &plans[first..end], payload, words, p)
}
