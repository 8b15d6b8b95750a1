// Payloads unpacked to words and packed from words, by a type of a table (01, "Payload and words"), whole or not at all; and where
// one was refused (02, request 3).
#![tactic(auto)]

mod by_plans;

ghost use Rattle.std.specs.Prelude.{◌≡◌, length};
ghost use Rattle.walk.specs.declared.Place.{Place};
ghost use Rattle.payload.specs.Calls.{stopped_at, went_to, answered, unpacked_in, words_in, unpacked, words_after, packed_in, bytes_in, packed, bytes_after};

pub use by_plans::{pack_parts, pack_plan, unpack_parts, unpack_plan};
use table::Sections;
use walk::{Place, Walked};

// 01, Numbers given back. 40 to 43 are the walk's, 30 to 33 the table's.
pub const NO_SUCH_TYPE: u32 = 44;

pub const OUTPUT_TOO_SHORT: u32 = 45;

// Where a walk stopped: the byte of the payload, packing the word, at which the refused item begins, or the first that is left over;
// and how many leaves come before it, counts of arrays among them.
#[derive(Clone, Copy)]
pub struct Spot {
    pub at: usize,
    pub leaves: usize,
}

// What unpacking and packing answer: a number; one of the walk's own (40 to 43) and where; or how many words or bytes were given.
#[derive(Clone, Copy)]
pub enum Answer {
    Refused(u32),
    Stopped(u32, Spot),
    Gave(usize),
}

// Unpacks a payload of the table's type of that number into the words.
#[tactic(auto, unfolding(crate::specs::Calls::answered_if, crate::specs::Calls::left_if))]
pub fn unpack(table: &[u8], number: u16, payload: &[u8], words: &mut [u64]) -> Answer
    ensures value { result ≡ unpacked table.now number payload.now (length words.old) }
    ensures words_after { words.new ≡ words_after table.now number payload.now words.old }
{
    match types::check(table) {
        Err(refusal) => Answer::Refused(refusal.number()),
        Ok(s) => unpack_in(table, s, number, payload, words),
    }
}

// The same by the sections that a check gave for these table bytes.
pub fn unpack_in(
    table: &[u8],
    s: Sections,
    number: u16,
    payload: &[u8],
    words: &mut [u64],
) -> Answer
    ensures value { result ≡ unpacked_in table.now s number payload.now (length words.old) }
    ensures words_after { words.new ≡ words_in table.now s number payload.now words.old }
{
    by_plans::unpack_parts(table, s, &[], number, payload, words)
}

// Packs the words as a payload of the table's type of that number into the output.
#[tactic(auto, unfolding(crate::specs::Calls::answered_if, crate::specs::Calls::left_if))]
pub fn pack(table: &[u8], number: u16, words: &[u64], out: &mut [u8]) -> Answer
    ensures value { result ≡ packed table.now number words.now (length out.old) }
    ensures out_after { out.new ≡ bytes_after table.now number words.now out.old }
{
    match types::check(table) {
        Err(refusal) => Answer::Refused(refusal.number()),
        Ok(s) => pack_in(table, s, number, words, out),
    }
}

// The same by the sections that a check gave for these table bytes.
pub fn pack_in(table: &[u8], s: Sections, number: u16, words: &[u64], out: &mut [u8]) -> Answer
    ensures value { result ≡ packed_in table.now s number words.now (length out.old) }
    ensures out_after { out.new ≡ bytes_in table.now s number words.now out.old }
{
    by_plans::pack_parts(table, s, &[], number, words, out)
}

// Unpacked, each leaf is a word.
pub(crate) fn read_to(len: usize, room: usize, walked: Walked) -> Answer
    ensures { result ≡ answered (λ q. q.to) len room walked }
{
    match walked {
        Walked::Stopped(n, q) => stopped_at(n, q, q.to),
        Walked::Went(q) => went_to(len, room, q, q.to),
    }
}

// Packed, each word is a leaf.
pub(crate) fn written_to(len: usize, room: usize, walked: Walked) -> Answer
    ensures { result ≡ answered (λ q. q.from) len room walked }
{
    match walked {
        Walked::Stopped(n, q) => stopped_at(n, q, q.from),
        Walked::Went(q) => went_to(len, room, q, q.from),
    }
}

// 32, of sections that no check gave, is not the walk's own.
fn stopped_at(n: u32, q: Place, leaves: usize) -> Answer
    ensures { result ≡ stopped_at n q leaves }
{
    if n == types::RULE_BROKEN {
        Answer::Refused(n)
    } else {
        Answer::Stopped(n, Spot { at: q.from, leaves })
    }
}

// 41 where input is left over, and last 45 where the output is too short.
fn went_to(len: usize, room: usize, q: Place, leaves: usize) -> Answer
    ensures { result ≡ went_to len room q leaves }
{
    if q.from < len {
        return Answer::Stopped(walk::LEFT_OVER, Spot { at: q.from, leaves });
    }
    if room < q.to {
        return Answer::Refused(OUTPUT_TOO_SHORT);
    }
    Answer::Gave(q.to)
}
