// 02, request 13: words written by the runs of a plan, with no look at the table but at an enum's values. All are judged before
// any is stored.
ghost use Rattle.std.specs.Prelude.{◌≡◌, true, ◌&&◌, [], ◌+◌, ◌≤◌, length, drop};
ghost use Rattle.table.specs.Leaf.{allowed};
ghost use Rattle.walk.specs.Walk.{answer, left, walk};
ghost use Rattle.walk.specs.Runs.{code_in, many_in, taken_by, run_tree, runs_tree};
ghost use Rattle.walk.specs.Planned.{plan_tree};
ghost use Rattle.pack.specs.Writing.{writer, Writing};
ghost use Rattle.pack.specs.ByPlan.{AllAmong, AllTaken, RunTaken, stored_runs};
ghost use Rattle.pack_leaves.specs.StoredRuns.{stored_all};

use crate::limits;
use walk::{Place, Walked, plans};

// Packs the words as a payload of type i's plan, and stores the bytes of each where there is room for them.
pub(crate) fn write_planned(
    table: &[u8],
    plans: &[u64],
    i: u16,
    words: &[u64],
    out: &mut [u8],
    p: Place,
) -> Walked
    requires { Writing words.now p }
    ensures value { result ≡ answer (walk (writer words.now) (plan_tree table.now plans.now i) p out.old) }
    ensures out_after { out.new
        ≡ left (walk (writer words.now) (plan_tree table.now plans.now i) p out.old) }
{
    let plan = plans::plan_of(plans, i);
    let first = plan.first;
    let end = first + plan.runs;
    write_runs(table, &plans[first..end], words, out, p)
}

// The same of a plan's runs.
fn write_runs(table: &[u8], runs: &[u64], words: &[u64], out: &mut [u8], p: Place) -> Walked
    requires { Writing words.now p }
    ensures value { result ≡ answer (walk (writer words.now) (runs_tree table.now runs.now) p out.old) }
    ensures out_after { out.new
        ≡ left (walk (writer words.now) (runs_tree table.now runs.now) p out.old) }
{
    match judge_runs(table, runs, words, p) {
        Walked::Went(q) => {
            store_runs(words, out, runs, p, q.from);
            Walked::Went(q)
        }
        Walked::Stopped(n, q) => {
            store_runs(words, out, runs, p, q.from);
            Walked::Stopped(n, q)
        }
    }
}

// Judges the words from p on, and stores nothing. Run by run, as long as all words of a run are taken; and from one on that is
// not, leaf by leaf.
pub(crate) fn judge_runs(table: &[u8], runs: &[u64], words: &[u64], p: Place) -> Walked
    requires { Writing words.now p }
    ensures { result ≡ answer (walk (writer words.now) (runs_tree table.now runs.now) p []) }
{
    let mut from = p.from;
    let mut to = p.to;
    for (k, &run) in runs.iter().enumerate() {
        if takes_run(table, run, words, from) {
            let many = plans::many_in(run) as usize;
            let width = leaf::width(plans::code_in(run));
            from = from + many;
            to = to + many * width;
        } else {
            return judge_rest(table, runs, words, k, Place { from, to });
        }
    }
    Walked::Went(Place { from, to })
}

// Whether all words of a run are there, and taken. A run of one is judged with no jump by its code: where the codes are mixed such
// a jump is foretold wrong.
fn takes_run(table: &[u8], run: u64, words: &[u64], from: usize) -> bool
    requires { from ≤ length words.now }
    ensures { result ≡ true → RunTaken words.now table.now run from }
{
    let many = plans::many_in(run) as usize;
    if words.len() - from < many {
        return false;
    }
    if many == 1 {
        return takes_word(table, run, words[from]);
    }
    takes_many(table, run, words, from)
}

// The same where the words are there. A slice that goes on to a call is made anew there: handed on as it came, it would be kept in memory,
// and waited for, where no call is made too.
pub(crate) fn takes_many(table: &[u8], run: u64, words: &[u64], from: usize) -> bool
    requires { from + many_in run ≤ length words.now }
    ensures { result ≡ true → RunTaken words.now table.now run from }
{
    let many = plans::many_in(run) as usize;
    let len = words.len();
    if limits::judged(&words[..len], from, plans::code_in(run), many) {
        among_all(table, run, words, from)
    } else {
        false
    }
}

// Whether all words of a run are among its values, where it has some.
fn among_all(table: &[u8], run: u64, words: &[u64], from: usize) -> bool
    requires { from + many_in run ≤ length words.now }
    ensures { result ≡ true → AllTaken words.now table.now run from (many_in run) }
{
    let count = plans::values_in(run);
    if count == 0 {
        return true;
    }
    let many = plans::many_in(run) as usize;
    let all = table.len();
    let len = words.len();
    are_among(
        &table[..all],
        plans::place_in(run),
        count,
        &words[..len],
        from,
        many,
    )
}

// Whether so many words are among the values that stand at a place of the table.
pub(crate) fn are_among(
    table: &[u8],
    at: u32,
    count: u16,
    words: &[u64],
    from: usize,
    many: usize,
) -> bool
    requires { from + many ≤ length words.now }
    ensures { result ≡ true → AllAmong words.now table.now at count from many }
{
    for k in 0..many {
        if !leaf::among_at(table, at, count, words[from + k]) {
            return false;
        }
    }
    true
}

// Judges the words of the runs from the first-th on, leaf by leaf.
pub(crate) fn judge_rest(
    table: &[u8],
    runs: &[u64],
    words: &[u64],
    first: usize,
    p: Place,
) -> Walked
    requires { Writing words.now p }
    ensures { result ≡ answer (walk (writer words.now) (runs_tree table.now (drop first runs.now)) p []) }
{
    let mut at = p;
    for k in first..runs.len() {
        match judge_leaves(table, runs[k], words, at) {
            Walked::Went(q) => at = q,
            Walked::Stopped(n, q) => return Walked::Stopped(n, q),
        }
    }
    Walked::Went(at)
}

// The words of one run, up to one that is not there or is refused.
fn judge_leaves(table: &[u8], run: u64, words: &[u64], p: Place) -> Walked
    requires { Writing words.now p }
    ensures { result ≡ answer (walk (writer words.now) (run_tree table.now run) p []) }
{
    let many = plans::many_in(run);
    let width = leaf::width(plans::code_in(run));
    let mut from = p.from;
    let mut to = p.to;
    for _ in 0..many {
        if words.len() <= from {
            return Walked::Stopped(walk::ENDS_EARLY, Place { from, to });
        }
        if takes_word(table, run, words[from]) {
            from = from + 1;
            to = to + width;
        } else {
            return Walked::Stopped(walk::NOT_ALLOWED, Place { from, to });
        }
    }
    Walked::Went(Place { from, to })
}

// Whether a leaf of the run takes the word.
fn takes_word(table: &[u8], run: u64, word: u64) -> bool
    ensures { result ≡ (allowed (code_in run) word && taken_by table.now run word) }
{
    leaf::allowed(plans::code_in(run), word) & is_chosen(table, run, word)
}

pub(crate) fn is_chosen(table: &[u8], run: u64, word: u64) -> bool
    ensures { result ≡ taken_by table.now run word }
{
    let count = plans::values_in(run);
    if count == 0 {
        true
    } else {
        leaf::among_at(table, plans::place_in(run), count, word)
    }
}

// Stores the bytes of the leaves whose words stand before the upto-th, each where there is room for it.
pub(crate) fn store_runs(words: &[u64], out: &mut [u8], runs: &[u64], p: Place, upto: usize)
    requires { Writing words.now p × (p.from ≤ upto) × (upto ≤ length words.now) }
    ensures { out.new ≡ stored_runs words.now runs.now p upto out.old }
{
    if out.len() <= p.to {
        return;
    }
    let mut from = p.from;
    let mut to = p.to;
    for &run in runs {
        let code = plans::code_in(run);
        let many = wire::least(plans::many_in(run) as usize, upto - from);
        pack_leaves::store_leaves(words, out, code, many, Place { from, to });
        from = from + many;
        to = to + many * leaf::width(code);
    }
}
