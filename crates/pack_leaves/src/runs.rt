// A run of leaves of one base code, stored with no test inside, so that the compiler goes over several words at once.
ghost use Rattle.std.specs.Prelude.{◌≡◌, cond, ◌+◌, ◌*◌, ◌≤◌, ◌<◌, leb, length};
ghost use Rattle.table.specs.Leaf.{width};
ghost use Rattle.pack_leaves.specs.StoredRuns.{stored_all};

use crate::bases;
use walk::Place;

// Stores the words of so many leaves of one code, as many as there is room for; nothing where not all the words are there.
pub fn store_run(words: &[u64], out: &mut [u8], code: u16, count: usize, p: Place)
    ensures { out.new
        ≡ cond (leb (p.from + count) (length words.now)) (stored_all words.now code p count out.old) out.old }
{
    if words.len() < p.from {
        return;
    }
    if words.len() - p.from < count {
        return;
    }
    store_all(words, out, code, count, p);
}

// The same, and of one leaf with no loop: by a plan most runs are of one. A call of its own for plans alone, so that the compiler lays
// it out in their loop.
pub fn store_leaves(words: &[u64], out: &mut [u8], code: u16, count: usize, p: Place)
    ensures { out.new
        ≡ cond (leb (p.from + count) (length words.now)) (stored_all words.now code p count out.old) out.old }
{
    if count == 1 {
        let from = p.from;
        if from < words.len() {
            bases::put_base(out, p.to, code, words[from]);
        }
    } else {
        store_run(words, out, code, count, p);
    }
}

// A call for each width, so that the compiler makes its own loop of each: a leaf's bytes are the low ones of its word, whichever code
// of its width it has.
fn store_all(words: &[u64], out: &mut [u8], code: u16, count: usize, p: Place)
    requires { p.from + count ≤ length words.now }
    ensures { out.new ≡ stored_all words.now code p count out.old }
{
    match leaf::width(code) {
        1 => store(words, out, leaf::UINT8, count, p),
        2 => store(words, out, leaf::UINT16, count, p),
        4 => store(words, out, leaf::UINT32, count, p),
        8 => store(words, out, leaf::UINT64, count, p),
        _ => {}
    }
}

// Stores as many leaves as there is room for.
fn store(words: &[u64], out: &mut [u8], code: u16, count: usize, p: Place)
    requires { (code < 13) × (p.from + count ≤ length words.now) }
    ensures { out.new ≡ stored_all words.now code p count out.old }
{
    if p.to < out.len() {
        let room = (out.len() - p.to) / leaf::width(code);
        store_fours(words, out, code, wire::least(room, count), p);
    }
}

// Four leaves in a turn, laid out one behind another: by itself the compiler takes two words at once, and loses by bringing their bytes
// into order more than it wins. What is left of them is stored one by one.
fn store_fours(words: &[u64], out: &mut [u8], code: u16, count: usize, p: Place)
    requires { (p.from + count ≤ length words.now) × (p.to + count * width code ≤ length out.old) }
    ensures { out.new ≡ stored_all words.now code p count out.old }
{
    let width = leaf::width(code);
    let fours = count / 4;
    for k in 0..fours {
        let at = 4 * k;
        store_each(
            words,
            out,
            code,
            4,
            Place {
                from: p.from + at,
                to: p.to + at * width,
            },
        );
    }
    let done = 4 * fours;
    store_each(
        words,
        out,
        code,
        count - done,
        Place {
            from: p.from + done,
            to: p.to + done * width,
        },
    );
}

fn store_each(words: &[u64], out: &mut [u8], code: u16, count: usize, p: Place)
    requires { (p.from + count ≤ length words.now) × (p.to + count * width code ≤ length out.old) }
    ensures { out.new ≡ stored_all words.now code p count out.old }
{
    let width = leaf::width(code);
    for k in 0..count {
        let from = p.from + k;
        bases::set(out, p.to + k * width, code, words[from]);
    }
}
