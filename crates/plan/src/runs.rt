// The runs of each type, laid out one type behind another: those of a record or an array are taken from those before it in the
// same words.
ghost use Rattle.std.specs.Prelude.{◌≡◌, ◌+◌, ◌-◌, ◌≤◌, ◌<◌, length, take};
ghost use Rattle.wire.specs.Bytes.{over};
ghost use Rattle.walk.specs.Runs.{many_in};
ghost use Rattle.plan.specs.Layout.{run_word, leaf_run, alike, merged, add, add_all, row_runs, runs, all_runs};
ghost use Rattle.plan.specs.Laying.{between, many_of, Room, runs_from, part_at, part_runs, Before, Parts, Laid, starts_of};
ghost use Rattle.plan.specs.Leaves.{sum_below, leaves, leaf_counts};
ghost use Rattle.table.specs.Layout.{most_types};
ghost use Rattle.walk.specs.Tree.{look};

use table::{Entry, Sections, entries};
use walk::Met;

// How many numbers a run's code and its leaves can be, and the places of its fields (`walk::plans`).
const BYTE: u64 = 256;

const HALF: u64 = 65536;

const VALUES: u64 = 16777216;

const PLACE: u64 = 1099511627776;

// The run of one leaf.
fn leaf_run(s: Sections, e: Entry) -> u64
    ensures { result ≡ leaf_run s e }
{
    if e.kind == table::ENUM {
        let place = s.values.at as u64 + 8 * (e.first as u64);
        return run_word(e.of, e.count, place);
    }
    run_word(e.of, e.count, 0)
}

fn run_word(code: u16, values: u16, place: u64) -> u64
    requires { place < 16777216 }
    ensures { result ≡ run_word code values place }
{
    code as u64 + VALUES * (values as u64) + PLACE * place
}

fn alike(a: u64, b: u64) -> bool
    ensures { result ≡ alike a b }
{
    (a % BYTE == b % BYTE) & (a / VALUES == b / VALUES)
}

fn merged(a: u64, b: u64) -> u64
    requires { many_in a + many_in b < 65536 }
    ensures { result ≡ merged a b }
{
    a + BYTE * (1 + b / BYTE % HALF)
}

// A run behind those from a place on to their end, or as more of the last of these; where they end then.
fn add(words: &mut [u64], from: usize, end: usize, run: u64) -> usize
    requires { Room words.old from end 1 (many_in run) }
    ensures value { result ≡ from + length (add (between from end words.old) run) }
    ensures words_after { words.new ≡ over words.old from (add (between from end words.old) run) }
{
    if from == end {
        words[end] = run;
        return end + 1;
    }
    let at = end - 1;
    let last = words[at];
    if alike(last, run) {
        words[at] = merged(last, run);
        return end;
    }
    words[end] = run;
    end + 1
}

// Likewise the runs that stand before, at one place on to another.
fn add_all(words: &mut [u64], from: usize, end: usize, at: usize, stop: usize) -> usize
    requires at_le_stop { (at ≤ stop) × (stop ≤ from) }
    requires room { Room words.old from end (stop - at) (many_of (between at stop words.old)) }
    ensures value { result ≡ from + length (add_all (between from end words.old) (between at stop words.old)) }
    ensures words_after { words.new
        ≡ over words.old from (add_all (between from end words.old) (between at stop words.old)) }
{
    let mut to = end;
    for k in at..stop {
        let run = words[k];
        to = add(words, from, to, run);
    }
    to
}

// Likewise the runs of type c, if it is one before type i.
fn add_type(words: &mut [u64], starts: &[usize], i: usize, c: u16, from: usize, end: usize) -> usize
    requires before { Before starts.now i from }
    requires room { Room words.old from end (length (runs_from words.old starts.now i c)) (many_of (runs_from words.old starts.now i c)) }
    ensures value { result ≡ from + length (add_all (between from end words.old) (runs_from words.old starts.now i c)) }
    ensures words_after { words.new
        ≡ over words.old from (add_all (between from end words.old) (runs_from words.old starts.now i c)) }
{
    let at = c as usize;
    if at < i {
        return add_all(words, from, end, starts[at], starts[at + 1]);
    }
    end
}

// The runs of a row's parts from a place on: a record's members, or an element as often as there are.
fn add_row(
    table: &[u8],
    s: Sections,
    e: Entry,
    is_record: bool,
    words: &mut [u64],
    starts: &[usize],
    i: usize,
    from: usize,
) -> usize
    requires before { Before starts.now i from }
    requires parts { Parts (part_runs table.now s e is_record words.old starts.now i) e.count from words.old }
    ensures value { result ≡ from + length (row_runs (part_runs table.now s e is_record words.old starts.now i) e.count) }
    ensures words_after { words.new
        ≡ over words.old from (row_runs (part_runs table.now s e is_record words.old starts.now i) e.count) }
{
    let mut to = from;
    for k in 0..e.count {
        let part = part_at(table, s, e, is_record, k);
        to = add_type(words, starts, i, part, from, to);
    }
    to
}

fn part_at(table: &[u8], s: Sections, e: Entry, is_record: bool, k: u16) -> u16
    ensures { result ≡ part_at table.now s e is_record k }
{
    if is_record {
        entries::member_at(table, s, e.first as u32 + k as u32)
    } else {
        e.of
    }
}

// The runs of type i behind those of the types before it; where they end.
fn lay_type(
    table: &[u8],
    s: Sections,
    i: usize,
    count: u16,
    words: &mut [u64],
    starts: &[usize],
    end: usize,
) -> usize
    requires i_lt_most_types { (i < most_types) × (count ≡ leaves table.now s i) }
    requires laid { Laid table.now s i words.old starts.now end }
    ensures value { result ≡ end + length (runs table.now s i) }
    ensures words_after { words.new ≡ over words.old end (runs table.now s i) }
{
    if count == 0 {
        return end;
    }
    let met = walk::look(table, s, i as u16);
    lay_met(table, s, i, met, words, starts, end)
}

fn lay_met(
    table: &[u8],
    s: Sections,
    i: usize,
    met: Met,
    words: &mut [u64],
    starts: &[usize],
    end: usize,
) -> usize
    requires met_value { (met ≡ look table.now s i) × (0 < leaves table.now s i) }
    requires laid { Laid table.now s i words.old starts.now end }
    ensures value { result ≡ end + length (runs table.now s i) }
    ensures words_after { words.new ≡ over words.old end (runs table.now s i) }
{
    match met {
        Met::Leaf(e) => {
            words[end] = leaf_run(s, e);
            end + 1
        }
        Met::Members(e) => add_row(table, s, e, true, words, starts, i, end),
        Met::Elements(e) => add_row(table, s, e, false, words, starts, i, end),
        Met::Broken => end,
    }
}

// The runs of all types, and where those of each start.
pub(crate) fn lay_runs(
    table: &[u8],
    s: Sections,
    counts: &[u16],
    words: &mut [u64],
    starts: &mut [usize],
)
    requires counts_len_bound { (length counts.now ≤ most_types) × (length counts.now < length starts.old) }
    requires counts_value { counts.now ≡ leaf_counts table.now s (length counts.now) }
    requires counts_in_bounds { sum_below (leaves table.now s) (length counts.now) ≤ length words.old }
    ensures words_after { words.new ≡ over words.old 0 (all_runs table.now s (length counts.now)) }
    ensures starts_after { take (length counts.now + 1) starts.new ≡ starts_of table.now s (length counts.now + 1) }
{
    let mut end = 0;
    for (i, count) in counts.iter().enumerate() {
        starts[i] = end;
        end = lay_type(table, s, i, *count, words, &starts[..i + 1], end);
    }
    starts[counts.len()] = end;
}
