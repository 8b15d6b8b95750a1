// A recording: where its datagrams stand, and how they are played, one after the other. It is read a block at a time: each call
// is handed what has come so far and says what it needs more of. How it starts is `start`'s, and what a line
// says `lines`'s.
#![tactic(auto)]

mod blocks;
mod lines;
mod start;
mod text;

ghost use Rattle.std.specs.Prelude.{◌≡◌};
ghost use Rattle.recording.specs.Datagrams.{next_in};
ghost use Rattle.recording.specs.Play.{state_of, played, stepped_of};

pub use blocks::keep;
use joiner::Joiner;
pub use lines::{Ending, LINE_LIMIT, put_ending};
pub use start::{Opened, open};

// What stands at a place of the recording: a datagram that is all there, part of one, or nothing.
#[derive(Clone, Copy)]
pub enum Coming {
    Datagram { start: usize, length: usize },
    Unfinished,
    Nothing,
}

// A run between two calls: the next datagram's number, where it stands in the input, and how many bytes of the output
// are lines already.
#[derive(Drop)]
pub struct Run {
    pub joiner: Joiner,
    pub number: u64,
    pub at: usize,
    pub made: usize,
}

// The next datagram in what has come so far.
pub fn next(input: &[u8], at: usize) -> Coming
    ensures { result ≡ next_in input.now at }
{
    if input.len() <= at {
        return Coming::Nothing;
    }
    if wire::has_room(input.len(), at, 2) {
        let start = at + 2;
        let length = wire::number_at::<u16>(input, at) as usize;
        if wire::has_room(input.len(), start, length) {
            return Coming::Datagram { start, length };
        }
        return Coming::Unfinished;
    }
    Coming::Unfinished
}

// Takes the whole datagrams that stand in the input, one after the other, and puts their lines into the output, until it
// has no room for another line.
pub fn play(run: Run, rooms: &mut [u8], input: &[u8], output: &mut [u8]) -> Run
    ensures { state_of result rooms.new output.new
        ≡ played input.now (state_of run rooms.old output.old) }
{
    let mut run = run;
    // By hand: where the next datagram stands is known once this one is taken, so nothing counts up that a `for` could go over.
    loop {
        match next(input, run.at) {
            Coming::Datagram { start, length } => {
                if wire::has_room(output.len(), run.made, LINE_LIMIT) {
                    run = play_one(
                        run,
                        rooms,
                        wire::part(input, start, length),
                        start + length,
                        output,
                    );
                } else {
                    return run;
                }
            }
            Coming::Unfinished => return run,
            Coming::Nothing => return run,
        }
    }
}

// One datagram, which ends at `end` of the input.
fn play_one(run: Run, rooms: &mut [u8], datagram: &[u8], end: usize, output: &mut [u8]) -> Run
    ensures { state_of result rooms.new output.new
        ≡ stepped_of (state_of run rooms.old output.old) datagram.now end }
{
    let taken = joiner::take(run.joiner, rooms, datagram);
    let outcome = taken.outcome;
    let joiner = taken.joiner;
    let made = lines::put_line(output, run.made, run.number, outcome);
    Run {
        joiner,
        number: std::num::wrapping_add_u64(run.number, 1),
        at: end,
        made,
    }
}
