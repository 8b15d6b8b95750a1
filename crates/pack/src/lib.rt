// Words are packed whole or not at all: what is refused, even at its end, changes nothing. So they are judged before any byte is
// stored.
#![tactic(auto)]

mod alike;
mod by_plan;
mod each;
mod limits;
mod walking;
mod whole;

ghost use Rattle.std.specs.Prelude.{◌≡◌, [], length};
ghost use Rattle.walk.specs.Walk.{start, answer, walk};
ghost use Rattle.walk.specs.Whole.{all_or_nothing};
ghost use Rattle.walk.specs.Planned.{plan_tree, type_by};
ghost use Rattle.pack.specs.Writing.{writer};

use table::Sections;
use walk::Walked;

// Packs the words as a payload of type i, by the plans of those types that have one, and stores its bytes where all of them were
// read and there is room for all of it. Answers what the walk comes to.
pub fn write_type(
    table: &[u8],
    s: Sections,
    plans: &[u64],
    i: u16,
    words: &[u64],
    out: &mut [u8],
) -> Walked
    ensures value { result ≡ answer (walk (writer words.now) (type_by plans.now table.now s i) start []) }
    ensures out_after { out.new
        ≡ all_or_nothing (writer words.now) (length words.now) (type_by plans.now table.now s i) out.old }
{
    match first_write(table, s, plans, i, words, out) {
        Walked::Stopped(n, q) => Walked::Stopped(n, q),
        Walked::Went(q) => {
            if walk::fits(q, words.len(), out.len()) {
                walking::write_once(table, s, plans, i, words, out)
            } else {
                Walked::Went(q)
            }
        }
    }
}

// The walk with no room for a byte: it stores nothing.
fn first_write(
    table: &[u8],
    s: Sections,
    plans: &[u64],
    i: u16,
    words: &[u64],
    out: &mut [u8],
) -> Walked
    ensures out_unchanged { out.new ≡ out.old }
    ensures value { result ≡ answer (walk (writer words.now) (type_by plans.now table.now s i) start []) }
{
    let no_byte = 0;
    walking::write_once(table, s, plans, i, words, &mut out[..no_byte])
}

// The same by the plan of type i alone: without one there is nothing to pack.
pub fn write_plan(table: &[u8], plans: &[u64], i: u16, words: &[u64], out: &mut [u8]) -> Walked
    ensures value { result ≡ answer (walk (writer words.now) (plan_tree table.now plans.now i) start []) }
    ensures out_after { out.new
        ≡ all_or_nothing (writer words.now) (length words.now) (plan_tree table.now plans.now i) out.old }
{
    let plan = walk::plans::plan_of(plans, i);
    let first = plan.first;
    let end = first + plan.runs;
    whole::write_whole(table, &plans[first..end], words, out)
}
