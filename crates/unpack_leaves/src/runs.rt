// The leaves of an array of one base code, one behind another: judged in one loop and stored in another, neither with a test of
// its own inside, so that the compiler takes several leaves at once. A call for each code, so that it makes loops for each.
ghost use Rattle.std.specs.Prelude.{◌≡◌, cond, ◌+◌, ◌*◌, ◌≤◌, ◌<◌, leb, length};
ghost use Rattle.wire.specs.All.{all_below};
ghost use Rattle.table.specs.Leaf.{width, allowed};
ghost use Rattle.unpack_leaves.specs.OneCode.{is_good, filled, run_there};

use crate::bases;
use walk::Place;

// Whether so many leaves of one code are all there and allowed.
pub fn judge_run(payload: &[u8], from: usize, code: u16, count: u32) -> bool
    ensures { result ≡ run_there payload.now code from count }
{
    match code {
        leaf::BOOLEAN8 => judge_each(payload, from, leaf::BOOLEAN8, count),
        leaf::INT8 => judge_each(payload, from, leaf::INT8, count),
        leaf::CHAR8 => judge_each(payload, from, leaf::CHAR8, count),
        leaf::INT16 => judge_each(payload, from, leaf::INT16, count),
        leaf::INT32 => judge_each(payload, from, leaf::INT32, count),
        leaf::INT64 => judge_each(payload, from, leaf::INT64, count),
        leaf::UINT8 => judge_each(payload, from, leaf::UINT8, count),
        leaf::BYTE => judge_each(payload, from, leaf::BYTE, count),
        leaf::UINT16 => judge_each(payload, from, leaf::UINT16, count),
        leaf::UINT32 => judge_each(payload, from, leaf::UINT32, count),
        leaf::UINT64 => judge_each(payload, from, leaf::UINT64, count),
        leaf::FLOAT32 => judge_each(payload, from, leaf::FLOAT32, count),
        leaf::DOUBLE64 => judge_each(payload, from, leaf::DOUBLE64, count),
        _ => (count == 0) & (from <= payload.len()),
    }
}

fn judge_each(payload: &[u8], from: usize, code: u16, count: u32) -> bool
    ensures { result ≡ run_there payload.now code from count }
{
    let many = count as usize;
    if wire::has_room(payload.len(), from, many * leaf::width(code)) {
        judged(payload, from, code, many)
    } else {
        false
    }
}

// Whether the words of so many leaves are allowed: of most codes every word is. The refused are counted, and not left at the first.
fn judged(payload: &[u8], from: usize, code: u16, count: usize) -> bool
    requires { (from + count * width code ≤ length payload.now) × (count < 4294967296) }
    ensures { result ≡ all_below (is_good payload.now code from) count }
{
    if leaf::range_of(code).every {
        return true;
    }
    if code == leaf::CHAR8 {
        return are_ascii(payload, from, count);
    }
    let width = leaf::width(code);
    let mut bad: u32 = 0;
    for seen in 0..count {
        bad += refused(code, bases::word_in(payload, from + seen * width, code));
    }
    bad == 0
}

// The same for char8, by one test for all: bytes put together are not above the last of ASCII where none of them is, since that
// is one less than a power of two.
fn are_ascii(payload: &[u8], from: usize, count: usize) -> bool
    requires { from + count ≤ length payload.now }
    ensures { result ≡ all_below (is_good payload.now 2 from) count }
{
    let mut all: u8 = 0;
    for seen in 0..count {
        all = all | payload[from + seen];
    }
    all as u64 <= leaf::range_of(leaf::CHAR8).last
}

fn refused(code: u16, word: u64) -> u32
    ensures { (result ≤ 1) × (result ≡ cond (allowed code word) 0 1) }
{
    if leaf::allowed(code, word) { 0 } else { 1 }
}

// Stores the words of so many leaves of one code where all their bytes are there, each word where there is room for it.
pub fn store_run(payload: &[u8], words: &mut [u64], code: u16, count: u32, p: Place)
    ensures { words.new
        ≡ cond (leb (p.from + count * width code) (length payload.now))
        (filled payload.now code p count words.old) words.old }
{
    let many = count as usize;
    if wire::has_room(payload.len(), p.from, many * leaf::width(code)) {
        put_run(payload, words, code, many, p);
    }
}

// As far as there is room for them.
fn put_run(payload: &[u8], words: &mut [u64], code: u16, count: usize, p: Place)
    requires { p.from + count * width code ≤ length payload.now }
    ensures { words.new ≡ filled payload.now code p count words.old }
{
    if p.to < words.len() {
        let room = wire::least(count, words.len() - p.to);
        store_all(payload, words, code, room, p);
    }
}

// A call for each code, so that the compiler makes its own loop of each: leaves of two bytes it takes several at once, and of the others
// four in a turn are faster.
fn store_all(payload: &[u8], words: &mut [u64], code: u16, count: usize, p: Place)
    requires { (p.from + count * width code ≤ length payload.now) × (p.to + count ≤ length words.old) }
    ensures { words.new ≡ filled payload.now code p count words.old }
{
    match code {
        leaf::BOOLEAN8 => store_fours(payload, words, leaf::BOOLEAN8, count, p),
        leaf::INT8 => store_fours(payload, words, leaf::INT8, count, p),
        leaf::CHAR8 => store_fours(payload, words, leaf::CHAR8, count, p),
        leaf::INT16 => store(payload, words, leaf::INT16, count, p),
        leaf::INT32 => store_fours(payload, words, leaf::INT32, count, p),
        leaf::INT64 => store_fours(payload, words, leaf::INT64, count, p),
        leaf::UINT8 => store_fours(payload, words, leaf::UINT8, count, p),
        leaf::BYTE => store_fours(payload, words, leaf::BYTE, count, p),
        leaf::UINT16 => store(payload, words, leaf::UINT16, count, p),
        leaf::UINT32 => store_fours(payload, words, leaf::UINT32, count, p),
        leaf::UINT64 => store_fours(payload, words, leaf::UINT64, count, p),
        leaf::FLOAT32 => store_fours(payload, words, leaf::FLOAT32, count, p),
        leaf::DOUBLE64 => store_fours(payload, words, leaf::DOUBLE64, count, p),
        _ => store(payload, words, code, count, p),
    }
}

// Four leaves in a turn, laid out one behind another: by itself the compiler takes two leaves at once, and loses by bringing them into
// order more than it wins. What is left of them is stored one by one.
fn store_fours(payload: &[u8], words: &mut [u64], code: u16, count: usize, p: Place)
    requires { (p.from + count * width code ≤ length payload.now) × (p.to + count ≤ length words.old) }
    ensures { words.new ≡ filled payload.now code p count words.old }
{
    let width = leaf::width(code);
    let fours = count / 4;
    for k in 0..fours {
        let at = 4 * k;
        store(
            payload,
            words,
            code,
            4,
            Place {
                from: p.from + at * width,
                to: p.to + at,
            },
        );
    }
    let done = 4 * fours;
    store(
        payload,
        words,
        code,
        count - done,
        Place {
            from: p.from + done * width,
            to: p.to + done,
        },
    );
}

fn store(payload: &[u8], words: &mut [u64], code: u16, count: usize, p: Place)
    requires { (p.from + count * width code ≤ length payload.now) × (p.to + count ≤ length words.old) }
    ensures { words.new ≡ filled payload.now code p count words.old }
{
    let width = leaf::width(code);
    for done in 0..count {
        words[p.to + done] = bases::word_in(payload, p.from + done * width, code);
    }
}
