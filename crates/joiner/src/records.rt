// The records of a joiner in its words.
ghost use Rattle.std.specs.Prelude.{◌≡◌, true, ◌<◌, get_or};
ghost use Rattle.channel.specs.Record.{channel_limit};
ghost use Rattle.joiner.specs.Setup.{place_of, distinct};
ghost use Rattle.joiner.specs.JoinerWords.{record_in};
ghost use Rattle.joiner.specs.Records.{Sized, good_record, good_records, senders_in, are_good, found_at};

use crate::looking::{FIRST_RECORD, RECORD_WORDS};
use binding::{COUNTERS, SENDERS};
use channel::Channel;

// Seen is 0 or 1.
const SEEN_LIMIT: u32 = 2;

// Whether every record is good and no ID stands twice, with every datagram: only where the IDs do not rise, as they do in most
// set-ups, is each looked at by itself.
pub(crate) fn are_good(state: &[u32]) -> bool
    requires { Sized state.now }
    ensures { result ≡ are_good state.now }
{
    if rise(state) {
        return true;
    }
    are_each_good(state)
}

pub(crate) fn are_each_good(state: &[u32]) -> bool
    requires { Sized state.now }
    ensures { result ≡ are_good state.now }
{
    if each_is_good(state) {
        return are_distinct(state);
    }
    false
}

// Whether every record is good and the IDs rise. Words that are to be below a power of two are put together, so that one
// test does for all.
fn rise(state: &[u32]) -> bool
    requires { Sized state.now }
    ensures { result ≡ true → are_good state.now ≡ true }
{
    let count = state[0] as usize;
    let room = state[1];
    let mut next: u64 = 0;
    let mut seens: u32 = 0;
    let mut lasts: u32 = 0;
    for i in 0..count {
        let start = FIRST_RECORD + RECORD_WORDS * i;
        let id = state[start] as u64;
        seens |= state[start + 1];
        lasts |= state[start + 2];
        if (id < next) | (room < state[start + 3]) {
            return false;
        }
        next = id + 1;
    }
    (next <= SENDERS as u64) & ((seens < SEEN_LIMIT) & (lasts < COUNTERS))
}

fn each_is_good(state: &[u32]) -> bool
    requires { Sized state.now }
    ensures { result ≡ good_records state.now (get_or state.now 0 0) }
{
    let count = state[0] as usize;
    (0..count).all(|i| is_good(state, i))
}

fn is_good(state: &[u32], at: usize) -> bool
    requires sized { Sized state.now }
    requires at_lt_channel_limit { at < channel_limit }
    ensures { result ≡ good_record state.now at }
{
    let start = FIRST_RECORD + RECORD_WORDS * at;
    ((state[start] < SENDERS) & (state[start + 1] < SEEN_LIMIT))
        & ((state[start + 2] < COUNTERS) & (state[start + 3] <= state[1]))
}

fn are_distinct(state: &[u32]) -> bool
    requires { Sized state.now }
    ensures { result ≡ distinct (senders_in state.now) }
{
    let count = state[0] as usize;
    for i in 0..count {
        if find(state, state[FIRST_RECORD + RECORD_WORDS * i]) < i {
            return false;
        }
    }
    true
}

// The place of the first record that bears the ID, or the count where none does.
pub(crate) fn find(state: &[u32], id: u32) -> usize
    requires { Sized state.now }
    ensures { result ≡ place_of (senders_in state.now) id }
{
    let count = state[0] as usize;
    for i in 0..count {
        if state[FIRST_RECORD + RECORD_WORDS * i] == id {
            return i;
        }
    }
    count
}

// The record at that place, where there is one.
pub(crate) fn found(state: &[u32], at: usize) -> Option<(usize, Channel)>
    requires sized { Sized state.now }
    requires state_value { are_good state.now ≡ true }
    ensures { result ≡ found_at state.now at }
{
    if at < state[0] as usize {
        let channel = record_in(state, at);
        return Some((at, channel));
    }
    None
}

fn record_in(state: &[u32], at: usize) -> Channel
    requires sized { Sized state.now }
    requires at_lt_channel_limit { at < channel_limit }
    requires at_value { good_record state.now at ≡ true }
    ensures { result ≡ record_in state.now at }
{
    let start = FIRST_RECORD + RECORD_WORDS * at;
    Channel {
        sender: state[start] as u16,
        seen: state[start + 1] == 1,
        last: state[start + 2],
        held: state[start + 3],
    }
}
