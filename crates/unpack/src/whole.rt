// A payload by the runs of its type's plan, from its start, whole or not at all: what a call by plans comes to. Its two loops are those of
// `by_plan` again, under the same laws, since they are laid out in place only where they are called once. That is most of the time of a
// small payload.
ghost use Rattle.std.specs.Prelude.{◌≡◌, [], ◌+◌, ◌*◌, ◌≤◌, length};
ghost use Rattle.table.specs.Leaf.{width};
ghost use Rattle.walk.specs.Runs.{runs_tree};
ghost use Rattle.walk.specs.Walk.{start, answer, walk};
ghost use Rattle.walk.specs.Whole.{all_or_nothing};
ghost use Rattle.unpack_leaves.specs.OneCode.{filled};
ghost use Rattle.unpack.specs.Reading.{reader};
ghost use Rattle.unpack.specs.RunByRun.{whole_at, stored_whole};

use crate::{bases, by_plan};
use walk::{Place, Walked};

// Unpacks a payload by these runs, and stores its words where all of it was read and there is room for all of them.
pub(crate) fn read_whole(table: &[u8], runs: &[u64], payload: &[u8], words: &mut [u64]) -> Walked
    ensures value { result ≡ answer (walk (reader payload.now) (runs_tree table.now runs.now) start []) }
    ensures words_after { words.new
        ≡ all_or_nothing (reader payload.now) (length payload.now)
        (runs_tree table.now runs.now) words.old }
{
    match judge_whole(table, runs, payload) {
        Walked::Stopped(n, q) => Walked::Stopped(n, q),
        Walked::Went(q) => {
            if walk::fits(q, payload.len(), words.len()) {
                store_whole(payload, words, runs);
                Walked::Went(q)
            } else {
                Walked::Went(q)
            }
        }
    }
}

// Judges the leaves of these runs: a run after another, and from one that is not all good leaf by leaf.
fn judge_whole(table: &[u8], runs: &[u64], payload: &[u8]) -> Walked
    ensures { result ≡ answer (walk (reader payload.now) (runs_tree table.now runs.now) start []) }
{
    let mut from: usize = 0;
    let mut to: usize = 0;
    for (k, &run) in runs.iter().enumerate() {
        let many = walk::plans::many_in(run) as usize;
        let bytes = many * leaf::width(walk::plans::code_in(run));
        if !by_plan::is_good(table, run, payload, from, bytes) {
            return by_plan::judge_rest(table, runs, k, payload, Place { from, to });
        }
        from = from + bytes;
        to = to + many;
    }
    Walked::Went(Place { from, to })
}

// Stores the words of all leaves of these runs, which are there and have room.
fn store_whole(payload: &[u8], words: &mut [u64], runs: &[u64])
    requires { ((whole_at runs.now (length runs.now)).from ≤ length payload.now) × ((whole_at runs.now (length runs.now)).to ≤ length words.old) }
    ensures { words.new ≡ stored_whole payload.now runs.now (length runs.now) words.old }
{
    let mut from: usize = 0;
    let mut to: usize = 0;
    for &run in runs {
        let code = walk::plans::code_in(run);
        let many = walk::plans::many_in(run);
        store_run(payload, words, code, many, Place { from, to });
        from = from + many as usize * leaf::width(code);
        to = to + many as usize;
    }
}

// Those of one run; of one leaf with no loop.
fn store_run(payload: &[u8], words: &mut [u64], code: u16, count: u32, p: Place)
    requires { (p.from + count * width code ≤ length payload.now) × (p.to + count ≤ length words.old) }
    ensures { words.new ≡ filled payload.now code p count words.old }
{
    if count == 1 {
        let to = p.to;
        words[to] = bases::leaf_in(payload, p.from, code);
    } else {
        let len = payload.len();
        unpack_leaves::store_run(&payload[..len], words, code, count, p);
    }
}
