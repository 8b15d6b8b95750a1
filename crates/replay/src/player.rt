// Replays a recording: reads it in blocks of a fixed buffer, and writes its lines in blocks, or as soon as they are made where
// the next read may wait. What stands in a recording and what its lines say is `recording`'s; here blocks only come and go.
ghost use Rattle.std.specs.Prelude.{◌≤◌, ◌<◌, ◌≡◌, true, length};
ghost use Rattle.replay.specs.Bounds.{input_length, rooms_length, RoomsFit};
ghost use Rattle.replay.specs.Endings.{Says20, Refuses20, RefusalIs20, NextWithin};
ghost use Rattle.replay.specs.declared.player.Next.TheVariants.{Write};

use files::Came;
use recording::{Coming, Ending, Opened, Run};
use refusal::Refusal;
use std::io::{Error, Read, Seek};

// Some four of the longest datagrams.
const INPUT: usize = 262144;

// Lines that wait to be written, and the rooms of a recording.
const BLOCK: usize = 65536;

// How a replay came to its end: its lines say so, or the recording could not be read, or its lines not be written.
#[derive(Drop)]
pub enum Replayed {
    Told(Ending),
    Unreadable,
    Unwritable,
}

// The start of the recording, as far as it came, and how much of the input is filled.
#[derive(Drop)]
struct Begun {
    opened: Result<Option<Opened>, Refusal>,
    filled: usize,
    failed: Option<Error>,
}

// What is to be done once all that came was played: its lines are written first, or so much of the input is filled anew,
// or the run ends.
#[derive(Drop)]
enum Next {
    Write,
    Filled(usize),
    End(Ending),
    Failed(Error),
}

// Replays the recording that can be read from `from`. `name` is what a message on standard error calls it, and `waits` says
// whether a read may wait for bytes that are not there yet.
pub fn replay(
    rt: &(impl Print + Eprint),
    from: &mut impl Read,
    waits: bool,
    name: &[u8],
) -> Replayed
    ensures { Refuses20 result }
{
    let mut block = input_buffer();
    let input: &mut [u8] = &mut block;
    let mut text = [0u8; BLOCK];
    let output: &mut [u8] = &mut text;
    let begun = begin(from, input);
    match begun.opened {
        Ok(Some(opened)) => {
            let run = Run {
                joiner: opened.joiner,
                number: 0,
                at: opened.start,
                made: 0,
            };
            play_in(
                rt,
                from,
                waits,
                name,
                run,
                opened.rooms,
                input,
                begun.filled,
                output,
            )
        }
        Err(refusal) => finish(rt, output, 0, Ending::RefusedSetup(refusal.number())),
        Ok(None) => match begun.failed {
            Some(error) => fail(rt, name, error, output, 0),
            None => finish(rt, output, 0, Ending::CutShort),
        },
    }
}

// Replays the recording in a file that is open.
pub fn replay_file(
    rt: &(impl Print + Eprint),
    file: &mut (impl Read + Seek),
    name: &[u8],
) -> Replayed
    ensures { Refuses20 result }
{
    let waits = may_wait(file);
    replay(rt, file, waits, name)
}

fn input_buffer() -> [u8; INPUT]
    ensures { input_length ≡ length result }
{
    [0; INPUT]
}

// Reads until the start of the recording is known, or nothing more comes.
fn begin(from: &mut impl Read, input: &mut [u8]) -> Begun
    requires { length input.old ≡ input_length }
    ensures { (result.filled ≤ input_length) × RoomsFit result.opened × RefusalIs20 result.opened }
{
    let mut filled: usize = 0;
    // By hand: how many reads it takes is the file's affair, and nothing counts up that a `for` could go over.
    loop {
        let opened = recording::open(&input[..filled]);
        match opened {
            Ok(None) => match files::fill(from, input, filled) {
                Came::More(n) => filled += n,
                Came::Nothing => {
                    return Begun {
                        opened,
                        filled,
                        failed: None,
                    };
                }
                Came::Failed(error) => {
                    return Begun {
                        opened,
                        filled,
                        failed: Some(error),
                    };
                }
            },
            _ => {
                return Begun {
                    opened,
                    filled,
                    failed: None,
                };
            }
        }
    }
}

// Plays the recording in rooms of `total` bytes.
fn play_in(
    rt: &(impl Print + Eprint),
    from: &mut impl Read,
    waits: bool,
    name: &[u8],
    run: Run,
    total: usize,
    input: &mut [u8],
    filled: usize,
    output: &mut [u8],
) -> Replayed
    requires { (length input.old ≡ input_length) × (filled ≤ input_length) × (total ≤ rooms_length) }
    ensures { Refuses20 result }
{
    let mut rooms = [0u8; BLOCK];
    play_all(
        rt,
        from,
        waits,
        name,
        run,
        &mut rooms[..total],
        input,
        filled,
        output,
    )
}

// Plays what is filled, and reads on, until nothing more comes. A proved loop has to end, and nothing says that a file
// does: so it counts its turns, up to a number that no run reaches.
fn play_all(
    rt: &(impl Print + Eprint),
    from: &mut impl Read,
    waits: bool,
    name: &[u8],
    run: Run,
    rooms: &mut [u8],
    input: &mut [u8],
    filled: usize,
    output: &mut [u8],
) -> Replayed
    requires { (length input.old ≡ input_length) × (filled ≤ input_length) }
    ensures { Refuses20 result }
{
    let mut run = run;
    let mut filled = filled;
    for _ in 0..u64::MAX {
        run = recording::play(run, rooms, &input[..filled], output);
        match read_on(from, input, filled, run.at, waits & (run.made > 0)) {
            Next::Write => {
                if files::flush(rt, output, run.made) {
                    run.made = 0;
                } else {
                    return Replayed::Unwritable;
                }
            }
            Next::Filled(n) => {
                filled = n;
                run.at = 0;
            }
            Next::End(ending) => return finish(rt, output, run.made, ending),
            Next::Failed(error) => return fail(rt, name, error, output, run.made),
        }
    }
    Replayed::Unreadable
}

// Whether a read of a file may wait for bytes that are not there yet. A file has a place from which it is read, and all its
// bytes are there; a pipe and a terminal, which may have names too, have none.
fn may_wait(file: &mut impl Seek) -> bool {
    file.stream_position().is_err()
}

// Reads on behind what is left of the input, unless lines are to be written before: those that are owed to whoever waits for
// them, or a whole datagram is left, for whose line the output had no room.
fn read_on(from: &mut impl Read, input: &mut [u8], filled: usize, at: usize, owed: bool) -> Next
    requires { (length input.old ≡ input_length) × (filled ≤ input_length) }
    ensures next_within { NextWithin result }
    ensures value { owed ≡ true → result ≡ Write }
{
    if owed {
        return Next::Write;
    }
    match recording::next(&input[..filled], at) {
        Coming::Datagram {
            start: _,
            length: _,
        } => Next::Write,
        Coming::Unfinished => {
            let kept = recording::keep(input, at, filled - at);
            read_behind(from, input, kept)
        }
        Coming::Nothing => read_behind(from, input, 0),
    }
}

fn read_behind(from: &mut impl Read, input: &mut [u8], kept: usize) -> Next
    requires { (length input.old ≡ input_length) × (kept < input_length) }
    ensures { NextWithin result }
{
    match files::fill(from, input, kept) {
        Came::More(n) => Next::Filled(kept + n),
        Came::Nothing => Next::End(ending_after(kept)),
        Came::Failed(error) => Next::Failed(error),
    }
}

// How a run ends with so many bytes of a datagram left.
fn ending_after(kept: usize) -> Ending
    ensures { Says20 result }
{
    if kept == 0 {
        Ending::Whole
    } else {
        Ending::CutShort
    }
}

// Writes the lines that are made, and the one that the run ends with.
fn finish(rt: &(impl Print + Eprint), output: &mut [u8], made: usize, ending: Ending) -> Replayed
    requires { Says20 ending }
    ensures { Refuses20 result }
{
    if files::flush(rt, output, made) {
        let last = recording::put_ending(output, 0, ending);
        if files::flush(rt, output, last) {
            return Replayed::Told(ending);
        }
    }
    Replayed::Unwritable
}

// Writes the lines that are made, and then what is wrong with the recording.
fn fail(
    rt: &(impl Print + Eprint),
    name: &[u8],
    error: Error,
    output: &[u8],
    made: usize,
) -> Replayed
    ensures { Refuses20 result }
{
    if files::flush(rt, output, made) {
        files::fail(rt, name, error);
        return Replayed::Unreadable;
    }
    Replayed::Unwritable
}
