// The leaves of a payload by their base codes, with no table: judged and stored, each in a loop of its own. A walk over a table
// takes most leaves so.
ghost use Rattle.std.specs.Prelude.{◌≡◌, ◌+◌, ◌≤◌, length, take};
ghost use Rattle.unpack_leaves.specs.Leaves.{ends, laid, there_count, whole_count};

use crate::{bases, runs};
use walk::Place;

// How many leaves, and where they end.
#[derive(Clone, Copy)]
pub struct Passed {
    pub count: usize,
    pub from: usize,
}

// Judges leaves of these codes from a byte on, up to one that is not there or not allowed.
pub fn judge_codes(payload: &[u8], codes: &[u8], first: usize) -> Passed
    ensures count_value { result.count ≡ there_count payload.now codes.now first }
    ensures from_value { result.from ≡ ends (take (there_count payload.now codes.now first) codes.now) first }
{
    if payload.len() < first {
        Passed {
            count: 0,
            from: first,
        }
    } else {
        judge_within(payload, codes, first)
    }
}

fn judge_within(payload: &[u8], codes: &[u8], first: usize) -> Passed
    requires { first ≤ length payload.now }
    ensures count_value { result.count ≡ there_count payload.now codes.now first }
    ensures from_value { result.from ≡ ends (take (there_count payload.now codes.now first) codes.now) first }
{
    let mut from = first;
    for (k, &byte) in codes.iter().enumerate() {
        let code = byte as u16;
        let width = leaf::width(code);
        if !bases::is_there(payload, from, code, width) {
            return Passed { count: k, from };
        }
        from = from + width;
    }
    Passed {
        count: codes.len(),
        from,
    }
}

// Stores the words of leaves of these codes, each where there is room for it, up to one whose bytes are not all there.
pub fn store_codes(payload: &[u8], words: &mut [u64], codes: &[u8], p: Place)
    ensures { words.new
        ≡ laid payload.now (take (whole_count payload.now codes.now p.from) codes.now) p words.old }
{
    if payload.len() < p.from {
        return;
    }
    if words.len() <= p.to {
        return;
    }
    let room = wire::least(codes.len(), words.len() - p.to);
    store_within(payload, words, &codes[..room], p);
}

fn store_within(payload: &[u8], words: &mut [u64], codes: &[u8], p: Place)
    requires { (p.from ≤ length payload.now) × (p.to + length codes.now ≤ length words.old) }
    ensures { words.new
        ≡ laid payload.now (take (whole_count payload.now codes.now p.from) codes.now) p words.old }
{
    let mut from = p.from;
    for (k, &byte) in codes.iter().enumerate() {
        let code = byte as u16;
        let width = leaf::width(code);
        if payload.len() - from < width {
            return;
        }
        words[p.to + k] = bases::word_in(payload, from, code);
        from = from + width;
    }
}
