// Words packed by the runs of a type's plan, from the start, whole or not at all: what a call by plans comes to. Its two loops are those of
// `by_plan` again, under the same laws, since they are laid out in place only where they are called once. That is most of the time of a
// small payload.
ghost use Rattle.std.specs.Prelude.{◌≡◌, true, ◌&&◌, [], ◌+◌, ◌*◌, ◌≤◌, length};
ghost use Rattle.wire.specs.Bytes.{written};
ghost use Rattle.table.specs.Leaf.{width, allowed};
ghost use Rattle.leaf.specs.Forms.{form_of};
ghost use Rattle.walk.specs.Runs.{code_in, taken_by, runs_tree};
ghost use Rattle.walk.specs.Walk.{start, answer, walk};
ghost use Rattle.walk.specs.Whole.{all_or_nothing};
ghost use Rattle.pack.specs.Writing.{writer};
ghost use Rattle.pack.specs.ByPlan.{RunTaken, whole_at, stored_whole};
ghost use Rattle.pack_leaves.specs.StoredRuns.{stored_all};

use crate::by_plan;
use walk::{Place, Walked, plans};

// Packs the words by these runs, and stores the bytes where all the words were read and there is room for all of them.
pub(crate) fn write_whole(table: &[u8], runs: &[u64], words: &[u64], out: &mut [u8]) -> Walked
    ensures value { result ≡ answer (walk (writer words.now) (runs_tree table.now runs.now) start []) }
    ensures out_after { out.new
        ≡ all_or_nothing (writer words.now) (length words.now) (runs_tree table.now runs.now) out.old }
{
    match judge_whole(table, runs, words) {
        Walked::Stopped(n, q) => Walked::Stopped(n, q),
        Walked::Went(q) => {
            if walk::fits(q, words.len(), out.len()) {
                store_whole(words, out, runs);
                Walked::Went(q)
            } else {
                Walked::Went(q)
            }
        }
    }
}

// Judges the words run by run, as long as all words of a run are taken; and from one on that is not, leaf by leaf.
fn judge_whole(table: &[u8], runs: &[u64], words: &[u64]) -> Walked
    ensures { result ≡ answer (walk (writer words.now) (runs_tree table.now runs.now) start []) }
{
    let mut from: usize = 0;
    let mut to: usize = 0;
    for (k, &run) in runs.iter().enumerate() {
        if takes_run(table, run, words, from) {
            let many = plans::many_in(run) as usize;
            let width = leaf::width(plans::code_in(run));
            from = from + many;
            to = to + many * width;
        } else {
            return by_plan::judge_rest(table, runs, words, k, Place { from, to });
        }
    }
    Walked::Went(Place { from, to })
}

// Whether all words of a run are there, and taken.
fn takes_run(table: &[u8], run: u64, words: &[u64], from: usize) -> bool
    requires { from ≤ length words.now }
    ensures { result ≡ true → RunTaken words.now table.now run from }
{
    let many = plans::many_in(run) as usize;
    if words.len() - from < many {
        return false;
    }
    if many == 1 {
        return takes_one(table, run, words[from]);
    }
    by_plan::takes_many(table, run, words, from)
}

// Whether a leaf of the run takes the word.
fn takes_one(table: &[u8], run: u64, word: u64) -> bool
    ensures { result ≡ (allowed (code_in run) word && taken_by table.now run word) }
{
    if leaf::allowed(plans::code_in(run), word) {
        by_plan::is_chosen(table, run, word)
    } else {
        false
    }
}

// Stores the bytes of all leaves of these runs, whose words are there and which have room.
fn store_whole(words: &[u64], out: &mut [u8], runs: &[u64])
    requires { ((whole_at runs.now (length runs.now)).from ≤ length words.now) × ((whole_at runs.now (length runs.now)).to ≤ length out.old) }
    ensures { out.new ≡ stored_whole words.now runs.now (length runs.now) out.old }
{
    let mut from: usize = 0;
    let mut to: usize = 0;
    for &run in runs {
        let code = plans::code_in(run);
        let many = plans::many_in(run) as usize;
        let bytes = many * leaf::width(code);
        store_run(words, out, code, many, bytes, Place { from, to });
        to = to + bytes;
        from = from + many;
    }
}

// Those of one run, which has so many bytes; of one leaf with no loop.
fn store_run(words: &[u64], out: &mut [u8], code: u16, count: usize, bytes: usize, p: Place)
    requires { (p.from + count ≤ length words.now) × (p.to + bytes ≤ length out.old) × (bytes ≡ count * width code) }
    ensures { out.new ≡ stored_all words.now code p count out.old }
{
    if count == 1 {
        let from = p.from;
        set(out, p.to, code, bytes, words[from]);
    } else {
        let len = words.len();
        pack_leaves::store_run(&words[..len], out, code, count, p);
    }
}

// Writes the bytes of a word for which there is room. By tests of how many they are, and not by the code: of that the compiler makes a jump,
// which is foretold wrong where the codes are mixed.
fn set(out: &mut [u8], at: usize, code: u16, bytes: usize, word: u64)
    requires { (at + width code ≤ length out.old) × (bytes ≡ width code) }
    ensures { out.new ≡ written out.old at (form_of code word) }
{
    match bytes {
        4 => wire::put_number::<u32>(&mut out[at..at + 4], 0, (word % 4294967296) as u32),
        8 => wire::put_number::<u64>(&mut out[at..at + 8], 0, word),
        2 => wire::put_number::<u16>(&mut out[at..at + 2], 0, (word % 65536) as u16),
        _ => set_byte(out, at, code, word),
    }
}

fn set_byte(out: &mut [u8], at: usize, code: u16, word: u64)
    requires code_in_bounds { at + width code ≤ length out.old }
    requires fact { (width code ≡ 2 → ⊥) × (width code ≡ 4 → ⊥) × (width code ≡ 8 → ⊥) }
    ensures { out.new ≡ written out.old at (form_of code word) }
{
    if leaf::width(code) == 1 {
        out[at] = (word % 256) as u8;
    }
}
