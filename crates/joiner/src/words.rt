// Joining with the joiner and the answers in lent words: set-up and take as the C interface has them.
ghost use Rattle.std.specs.Prelude.{◌≡◌, [], ◌∷◌, Ok};
ghost use Rattle.joiner.specs.Calls.{setup_number, setup_words, outcome_words, take_number, take_words, take_rooms, take_answer};

use crate::looking::JOINER_WORDS;
use crate::{in_words, looking, setups};
use binding::BindingHeader;
use channel::{Outcome, Slice};

// How many words an answer of `take` is.
pub const ANSWER_WORDS: usize = 5;

// Which outcome a datagram had.
pub const REPEATED: u64 = 1;

pub const DELIVERED: u64 = 2;

pub const HELD: u64 = 3;

pub const STRAY: u64 = 4;

pub const TOO_LONG: u64 = 5;

// Where a delivered message lies.
pub const IN_DATAGRAM: u64 = 1;

pub const IN_ROOMS: u64 = 2;

// A fresh joiner for these sender IDs, with `room` bytes for each in rooms of `rooms` bytes; or 20.
#[tactic(auto, unfolding(crate::specs::Calls::setup_number, crate::specs::Calls::setup_words))]
pub fn setup(state: &mut [u32; JOINER_WORDS], ids: &[u16], room: u32, rooms: usize) -> u32
    ensures value { result ≡ setup_number ids.now room rooms }
    ensures state_after { state.new ≡ setup_words ids.now room rooms state.old }
{
    match setups::setup(ids, room, rooms) {
        Err(refusal) => refusal.number(),
        Ok(joiner) => {
            *state = in_words::words_of(joiner);
            0
        }
    }
}

// Takes one datagram: 20 to 23, or 0 and what it was to its channel, whose record alone changes.
pub fn take(
    state: &mut [u32; JOINER_WORDS],
    rooms: &mut [u8],
    datagram: &[u8],
    answer: &mut [u64; ANSWER_WORDS],
) -> u32
    ensures value { result ≡ take_number state.old rooms.old datagram.now }
    ensures state_after { state.new ≡ take_words state.old rooms.old datagram.now }
    ensures rooms_after { rooms.new ≡ take_rooms state.old rooms.old datagram.now }
    ensures answer_after { answer.new ≡ take_answer state.old rooms.old datagram.now answer.old }
{
    let heading = BindingHeader::read(datagram);
    let size = state[1];
    let found = looking::look(state, rooms.len(), crate::sender_of(heading));
    match crate::judge(found, size, heading, datagram.len()) {
        Err(refusal) => refusal.number(),
        Ok((at, step)) => {
            let outcome = step.outcome;
            let channel = step.channel;
            let put = step.put;
            put_outcome(answer, outcome);
            in_words::put_record(state, at, channel);
            crate::write_piece(rooms, put, datagram);
            0
        }
    }
}

fn put_outcome(answer: &mut [u64; ANSWER_WORDS], outcome: Outcome)
    ensures { answer.new ≡ outcome_words (Ok outcome) answer.old }
{
    match outcome {
        Outcome::Repeated => put_words(answer, REPEATED, 0, 0, 0, 0),
        Outcome::Delivered { missed, slice } => match slice {
            Slice::Datagram { start, length } => put_words(
                answer,
                DELIVERED,
                missed as u64,
                length as u64,
                IN_DATAGRAM,
                start as u64,
            ),
            Slice::Rooms { start, length } => put_words(
                answer,
                DELIVERED,
                missed as u64,
                length as u64,
                IN_ROOMS,
                start as u64,
            ),
        },
        Outcome::Held { missed, held } => put_words(answer, HELD, missed as u64, held as u64, 0, 0),
        Outcome::Stray { missed } => put_words(answer, STRAY, missed as u64, 0, 0, 0),
        Outcome::TooLong { missed } => put_words(answer, TOO_LONG, missed as u64, 0, 0, 0),
    }
}

fn put_words(
    answer: &mut [u64; ANSWER_WORDS],
    outcome: u64,
    missed: u64,
    bytes: u64,
    slice: u64,
    start: u64,
)
    ensures { answer.new ≡ (outcome ∷ missed ∷ bytes ∷ slice ∷ start ∷ []) }
{
    *answer = [outcome, missed, bytes, slice, start];
}
