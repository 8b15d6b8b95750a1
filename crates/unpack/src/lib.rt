// A payload is unpacked whole or not at all: what is refused, even at its end, changes nothing. So it is judged before any word is
// stored.
#![tactic(auto)]

mod at_once;
mod bases;
mod by_plan;
mod each;
mod walking;
mod whole;

ghost use Rattle.std.specs.Prelude.{◌≡◌, [], length};
ghost use Rattle.walk.specs.Walk.{start, answer, walk};
ghost use Rattle.walk.specs.Planned.{plan_tree, type_by};
ghost use Rattle.walk.specs.Whole.{all_or_nothing};
ghost use Rattle.unpack.specs.Reading.{reader};

use table::Sections;
use walk::Walked;

// Up to how many bytes a payload is short, and how many words the near room has: most leaves have four bytes or fewer.
const SHORT: usize = 512;

const NEAR: usize = 128;

// Unpacks a payload as type i, what of it has a plan by its plan, and stores its words where all of it was read and there is room for all of them.
// Answers what the walk comes to.
pub fn read_type(
    table: &[u8],
    s: Sections,
    plans: &[u64],
    i: u16,
    payload: &[u8],
    words: &mut [u64],
) -> Walked
    ensures value { result ≡ answer (walk (reader payload.now) (type_by plans.now table.now s i) start []) }
    ensures words_after { words.new
        ≡ all_or_nothing (reader payload.now) (length payload.now)
        (type_by plans.now table.now s i) words.old }
{
    if payload.len() <= SHORT {
        read_short(table, s, plans, i, payload, words)
    } else {
        read_long(table, s, plans, i, payload, words)
    }
}

// A short payload: most have all their words in a room that is near.
fn read_short(
    table: &[u8],
    s: Sections,
    plans: &[u64],
    i: u16,
    payload: &[u8],
    words: &mut [u64],
) -> Walked
    ensures value { result ≡ answer (walk (reader payload.now) (type_by plans.now table.now s i) start []) }
    ensures words_after { words.new
        ≡ all_or_nothing (reader payload.now) (length payload.now)
        (type_by plans.now table.now s i) words.old }
{
    let mut near = [0u64; NEAR];
    read_near(table, s, plans, i, payload, words, &mut near)
}

// Judges in a walk over the near room. Where all words are in it, they are copied, and there is no second walk.
fn read_near(
    table: &[u8],
    s: Sections,
    plans: &[u64],
    i: u16,
    payload: &[u8],
    words: &mut [u64],
    near: &mut [u64],
) -> Walked
    ensures value { result ≡ answer (walk (reader payload.now) (type_by plans.now table.now s i) start []) }
    ensures words_after { words.new
        ≡ all_or_nothing (reader payload.now) (length payload.now)
        (type_by plans.now table.now s i) words.old }
{
    match walking::read_once(table, s, plans, i, payload, near) {
        Walked::Stopped(n, q) => Walked::Stopped(n, q),
        Walked::Went(q) => {
            if walk::fits(q, payload.len(), words.len()) {
                let count = q.to;
                if count <= near.len() {
                    words[..count].copy_from_slice(&near[..count]);
                    Walked::Went(q)
                } else {
                    walking::read_once(table, s, plans, i, payload, words)
                }
            } else {
                Walked::Went(q)
            }
        }
    }
}

// Any other: walked over no room, to judge, and once more to store.
fn read_long(
    table: &[u8],
    s: Sections,
    plans: &[u64],
    i: u16,
    payload: &[u8],
    words: &mut [u64],
) -> Walked
    ensures value { result ≡ answer (walk (reader payload.now) (type_by plans.now table.now s i) start []) }
    ensures words_after { words.new
        ≡ all_or_nothing (reader payload.now) (length payload.now)
        (type_by plans.now table.now s i) words.old }
{
    match first_read(table, s, plans, i, payload, words) {
        Walked::Stopped(n, q) => Walked::Stopped(n, q),
        Walked::Went(q) => {
            if walk::fits(q, payload.len(), words.len()) {
                walking::read_once(table, s, plans, i, payload, words)
            } else {
                Walked::Went(q)
            }
        }
    }
}

// Unpacks a payload as type i by its plan, likewise: judged, and stored where all of it was read and there is room.
pub fn read_plan(table: &[u8], plans: &[u64], i: u16, payload: &[u8], words: &mut [u64]) -> Walked
    ensures value { result ≡ answer (walk (reader payload.now) (plan_tree table.now plans.now i) start []) }
    ensures words_after { words.new
        ≡ all_or_nothing (reader payload.now) (length payload.now)
        (plan_tree table.now plans.now i) words.old }
{
    let plan = walk::plans::plan_of(plans, i);
    let first = plan.first;
    let end = plan.first + plan.runs;
    whole::read_whole(table, &plans[first..end], payload, words)
}

// The walk with no room for a word: it stores nothing.
fn first_read(
    table: &[u8],
    s: Sections,
    plans: &[u64],
    i: u16,
    payload: &[u8],
    words: &mut [u64],
) -> Walked
    ensures words_unchanged { words.new ≡ words.old }
    ensures value { result ≡ answer (walk (reader payload.now) (type_by plans.now table.now s i) start []) }
{
    let no_word = 0;
    walking::read_once(table, s, plans, i, payload, &mut words[..no_word])
}
