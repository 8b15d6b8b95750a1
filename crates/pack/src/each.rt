// The elements of an array, each by the plan of their type: the plan is looked up once for all of them.
ghost use Rattle.std.specs.Prelude.{◌≡◌, true, ◌≤◌, length};
ghost use Rattle.walk.specs.Tree.{Tree};
ghost use Rattle.walk.specs.Planned.{is_planned, plan_tree};
ghost use Rattle.walk.specs.Walk.{Going};
ghost use Rattle.pack.specs.Writing.{Writing, tree_written};
ghost use Rattle.pack.specs.ByPlan.{runs_written, stored_runs};

use crate::alike::Reached;
use crate::by_plan;
use walk::{Place, Walked};

// Writes elements of type i from the from-th on, up to one that is refused; none where the type has no plan.
pub(crate) fn write_planned(
    table: &[u8],
    plans: &[u64],
    i: u16,
    words: &[u64],
    out: &mut [u8],
    from: u32,
    count: u32,
    p: Place,
) -> Reached
    requires { Writing words.now p × (from ≤ count) }
    ensures { (tr : Tree) → (is_planned plans.now i ≡ true → tr ≡ plan_tree table.now plans.now i)
        → Going (Writing words.now) (tree_written words.now tr) count from p out.old result.upto result.at out.new }
{
    if walk::plans::is_planned(plans, i) {
        write_each(table, plans, i, words, out, from, count, p)
    } else {
        Reached { upto: from, at: p }
    }
}

fn write_each(
    table: &[u8],
    plans: &[u64],
    i: u16,
    words: &[u64],
    out: &mut [u8],
    from: u32,
    count: u32,
    p: Place,
) -> Reached
    requires { Writing words.now p × (from ≤ count) }
    ensures { Going (Writing words.now) (tree_written words.now (plan_tree table.now plans.now i)) count
        from p out.old result.upto result.at out.new }
{
    let plan = walk::plans::plan_of(plans, i);
    let first = plan.first;
    let end = first + plan.runs;
    write_times(table, &plans[first..end], words, out, from, count, p)
}

// The same of a plan's runs.
fn write_times(
    table: &[u8],
    runs: &[u64],
    words: &[u64],
    out: &mut [u8],
    from: u32,
    count: u32,
    p: Place,
) -> Reached
    requires { Writing words.now p × (from ≤ count) }
    ensures { Going (Writing words.now) (runs_written words.now table.now runs.now) count
        from p out.old result.upto result.at out.new }
{
    let mut at = p;
    for k in from..count {
        match by_plan::judge_runs(table, runs, words, at) {
            Walked::Went(q) => {
                store_element(words, out, runs, at, q.from);
                at = q;
            }
            Walked::Stopped(_, _) => return Reached { upto: k, at },
        }
    }
    Reached { upto: count, at }
}

// Stores the leaves of one element. The room is seen before the call: the first walk has none, and the call costs as much as a leaf.
fn store_element(words: &[u64], out: &mut [u8], runs: &[u64], p: Place, upto: usize)
    requires { Writing words.now p × (p.from ≤ upto) × (upto ≤ length words.now) }
    ensures { out.new ≡ stored_runs words.now runs.now p upto out.old }
{
    if p.to < out.len() {
        by_plan::store_runs(words, out, runs, p, upto);
    }
}
