// The plans of a table as a whole: how many types there are, an index with a word for each, and behind it the runs.
ghost use Rattle.std.specs.Prelude.{◌≡◌, ◌+◌, ◌≤◌, ◌<◌, length, true};
ghost use Rattle.wire.specs.Bytes.{over};
ghost use Rattle.table.specs.Layout.{most_types, within};
ghost use Rattle.plan.specs.Leaves.{sum_below, leaf_counts, leaves};
ghost use Rattle.plan.specs.Layout.{index_word, plans, laid_number, laid_out};
ghost use Rattle.refusal.specs.Refusal.{verdict_of};
ghost use Rattle.plan.specs.Laying.{Before, most_runs, front_of};

use crate::{leaves, runs};
use refusal::Refusal;
use table::Sections;

// The places of an index word's fields (`walk::plans`).
const HALF: u64 = 65536;

const WORD: u64 = 4294967296;

// Lays the plans of a table's types out in words; or refuses, with the words as they were: with 30 where the sections do not lie in the
// table's bytes, and with 10 where the words are fewer than `length_in` says.
pub fn lay(table: &[u8], s: Sections, plans: &mut [u64]) -> Result<(), Refusal>
    ensures value { result ≡ verdict_of (laid_number table.now s (length plans.old)) }
    ensures plans_after { plans.new ≡ laid_out table.now s plans.old }
{
    if table::within(table, s) {
        lay_within(table, s, plans)
    } else {
        Err(Refusal::TableLength)
    }
}

fn lay_within(table: &[u8], s: Sections, words: &mut [u64]) -> Result<(), Refusal>
    requires { (s.types.count ≤ most_types) × (within table.now s ≡ true) }
    ensures value { result ≡ verdict_of (laid_number table.now s (length words.old)) }
    ensures words_after { words.new ≡ laid_out table.now s words.old }
{
    let n = s.types.count as usize;
    let mut room = [0u16; 256];
    leaves::fill(table, s, &mut room, n);
    if words.len() < 1 + n + leaves::sum(&room[..n]) {
        return Err(Refusal::NoRoom);
    }
    lay_out(table, s, &room[..n], words);
    Ok(())
}

// Behind the words for the index the runs, and then the index.
fn lay_out(table: &[u8], s: Sections, counts: &[u16], words: &mut [u64])
    requires count_le_most_types { (s.types.count ≤ most_types) × (length counts.now ≡ s.types.count) }
    requires counts_value { counts.now ≡ leaf_counts table.now s (length counts.now) }
    requires counts_in_bounds { 1 + length counts.now + sum_below (leaves table.now s) (length counts.now) ≤ length words.old }
    ensures { words.new ≡ over words.old 0 (plans table.now s) }
{
    let front = counts.len() + 1;
    let mut starts = [0usize; 257];
    runs::lay_runs(table, s, counts, &mut words[front..], &mut starts);
    put_front(words, counts, &starts[..front]);
}

fn put_front(words: &mut [u64], counts: &[u16], starts: &[usize])
    requires counts_len_bound { (length counts.now ≤ most_types) × (length counts.now < length words.old) }
    requires before { Before starts.now (length counts.now) most_runs }
    ensures { words.new ≡ over words.old 0 (front_of counts.now starts.now) }
{
    let n = counts.len();
    for (k, leaves) in counts.iter().enumerate() {
        let next = k + 1;
        let at = starts[k];
        words[next] = index_word((1 + n + at) as u64, (starts[next] - at) as u64, *leaves);
    }
    words[0] = n as u64;
}

fn index_word(first: u64, many: u64, leaves: u16) -> u64
    requires { (first < 16777216) × (many < 16777216) }
    ensures { result ≡ index_word first many leaves }
{
    if leaves == 0 {
        return 0;
    }
    WORD * first + HALF * many + leaves as u64
}
