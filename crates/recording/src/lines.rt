// The lines that a replay writes: one for each datagram, and one for how the run ends. Each is put together in a small
// array of its own and then written whole, or not at all.
ghost use Rattle.std.specs.Prelude.{◌≡◌, length};
ghost use Rattle.wire.specs.Bytes.{written, part};
ghost use Rattle.channel.specs.Outcomes.{name_of, missed_in, bytes_in};
ghost use Rattle.recording.specs.Places.{behind, spaced, put_all, end_all};
ghost use Rattle.recording.specs.Line.{line_limit, line_of, refused_line, ending_of};
ghost use Rattle.recording.specs.Words.{refusal_words, count_words, value_words};

use crate::text;
use channel::{Outcome, Slice};
use refusal::Refusal;

// How a run ends: after the last datagram, in the middle of something, or at its start.
#[derive(Clone, Copy)]
pub enum Ending {
    Whole,
    CutShort,
    RefusedSetup(u32),
}

// No line is longer.
pub const LINE_LIMIT: usize = 73;

// Writes the line of the datagram with this number at `at`, where it fits, and answers where the next one goes.
pub(crate) fn put_line(
    output: &mut [u8],
    at: usize,
    number: u64,
    outcome: Result<Outcome, Refusal>,
) -> usize
    ensures value { result ≡ behind (length output.old) at (line_of number outcome) }
    ensures output_after { output.new ≡ written output.old at (line_of number outcome) }
{
    let mut space = [0u8; LINE_LIMIT];
    let line: &mut [u8] = &mut space;
    let end = make_line(line, number, outcome);
    text::put_text(output, at, wire::part(line, 0, end))
}

// Writes the line that a run ends with, if it has one, at `at`, where it fits, and answers where the next one goes.
pub fn put_ending(output: &mut [u8], at: usize, ending: Ending) -> usize
    ensures value { result ≡ behind (length output.old) at (ending_of ending) }
    ensures output_after { output.new ≡ written output.old at (ending_of ending) }
{
    match ending {
        Ending::Whole => text::put_text(output, at, b""),
        Ending::CutShort => text::put_text(output, at, b"cut short\n"),
        Ending::RefusedSetup(number) => put_refused(output, at, number),
    }
}

fn put_refused(output: &mut [u8], at: usize, number: u32) -> usize
    ensures value { result ≡ behind (length output.old) at (refused_line number) }
    ensures output_after { output.new ≡ written output.old at (refused_line number) }
{
    let mut space = [0u8; LINE_LIMIT];
    let line: &mut [u8] = &mut space;
    let end = make_refused(line, number);
    text::put_text(output, at, wire::part(line, 0, end))
}

fn make_line(line: &mut [u8], number: u64, outcome: Result<Outcome, Refusal>) -> usize
    requires { length line.old ≡ line_limit }
    ensures { part line.new 0 result ≡ line_of number outcome }
{
    let numbered = text::put_decimal(line, 0, number);
    let named = put_name(line, numbered, outcome);
    put_values(line, named, outcome)
}

fn make_refused(line: &mut [u8], number: u32) -> usize
    requires { length line.old ≡ line_limit }
    ensures { part line.new 0 result ≡ refused_line number }
{
    let named = text::put_text(line, 0, b"setup refused");
    put_refusal(line, named, number)
}

fn put_name(line: &mut [u8], at: usize, outcome: Result<Outcome, Refusal>) -> usize
    ensures value { result ≡ behind (length line.old) at (spaced (name_of outcome)) }
    ensures line_after { line.new ≡ written line.old at (spaced (name_of outcome)) }
{
    match outcome {
        Err(_) => text::put_text(line, at, b" refused"),
        Ok(Outcome::Repeated) => text::put_text(line, at, b" repeated"),
        Ok(
            Outcome::Delivered {
                missed: _,
                slice: _,
            },
        ) => text::put_text(line, at, b" delivered"),
        Ok(Outcome::Held { missed: _, held: _ }) => text::put_text(line, at, b" held"),
        Ok(Outcome::Stray { missed: _ }) => text::put_text(line, at, b" stray"),
        Ok(Outcome::TooLong { missed: _ }) => text::put_text(line, at, b" too long"),
    }
}

// What stands behind the name.
fn put_values(line: &mut [u8], at: usize, outcome: Result<Outcome, Refusal>) -> usize
    ensures value { result ≡ end_all (value_words outcome) line.old at }
    ensures line_after { line.new ≡ put_all (value_words outcome) line.old at }
{
    match outcome {
        Err(refusal) => put_refusal(line, at, refusal.number()),
        _ => put_counts(line, at, missed_in(outcome), bytes_in(outcome)),
    }
}

fn put_refusal(line: &mut [u8], at: usize, number: u32) -> usize
    ensures value { result ≡ end_all (refusal_words number) line.old at }
    ensures line_after { line.new ≡ put_all (refusal_words number) line.old at }
{
    let end = text::put_number(line, at, number as u64);
    text::put_text(line, end, b"\n")
}

fn put_counts(line: &mut [u8], at: usize, missed: u32, bytes: usize) -> usize
    ensures value { result ≡ end_all (count_words missed bytes) line.old at }
    ensures line_after { line.new ≡ put_all (count_words missed bytes) line.old at }
{
    let first = text::put_number(line, at, missed as u64);
    let last = text::put_number(line, first, bytes as u64);
    text::put_text(line, last, b"\n")
}

fn missed_in(outcome: Result<Outcome, Refusal>) -> u32
    ensures { result ≡ missed_in outcome }
{
    match outcome {
        Err(_) => 0,
        Ok(Outcome::Repeated) => 0,
        Ok(Outcome::Delivered { missed, slice: _ }) => missed,
        Ok(Outcome::Held { missed, held: _ }) => missed,
        Ok(Outcome::Stray { missed }) => missed,
        Ok(Outcome::TooLong { missed }) => missed,
    }
}

// The bytes held or delivered.
fn bytes_in(outcome: Result<Outcome, Refusal>) -> usize
    ensures { result ≡ bytes_in outcome }
{
    match outcome {
        Err(_) => 0,
        Ok(Outcome::Repeated) => 0,
        Ok(Outcome::Delivered { missed: _, slice }) => match slice {
            Slice::Datagram { start: _, length } => length,
            Slice::Rooms { start: _, length } => length,
        },
        Ok(Outcome::Held { missed: _, held }) => held as usize,
        Ok(Outcome::Stray { missed: _ }) => 0,
        Ok(Outcome::TooLong { missed: _ }) => 0,
    }
}
