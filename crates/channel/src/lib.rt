// One channel: its record, and what a datagram does to it before anything is written (01, Joining, steps 1 to 5). `joiner` sets
// channels up, finds the one that a datagram is for, and writes what its step says.
#![tactic(auto)]

ghost use Rattle.std.specs.Prelude.{◌≡◌};
ghost use Rattle.channel.specs.Channel.{can_move, moved_of};
ghost use Rattle.channel.specs.Record.{room_start};

use binding::{BindingHeader, COUNTERS};
use refusal::Refusal;

mod steps;

// How many channels a joiner can have, and how large their rooms are.
pub const CHANNELS: usize = 32;

pub const LARGEST_ROOM: u32 = 65560;

// One channel: whether a counter was seen, the last counter, and how many bytes are held (0: nothing). Each number is
// wider than its range, so that one handed in can be judged.
#[derive(Clone, Copy)]
pub struct Channel {
    pub sender: u16,
    pub seen: bool,
    pub last: u32,
    pub held: u32,
}

// The lent slice that holds a delivered message, the datagram it came in or the rooms, and the part of it.
#[derive(Clone, Copy)]
pub enum Slice {
    Datagram { start: usize, length: usize },
    Rooms { start: usize, length: usize },
}

// What became of a datagram that was not refused.
#[derive(Clone, Copy)]
pub enum Outcome {
    Repeated,
    Delivered { missed: u32, slice: Slice },
    Held { missed: u32, held: u32 },
    Stray { missed: u32 },
    TooLong { missed: u32 },
}

// A channel's part of the lent buffer.
#[derive(Clone, Copy)]
pub struct Room {
    pub start: usize,
    pub size: u32,
}

// What a datagram does to its channel: the outcome, the record after it, and where in the rooms its piece is to be written, if at all.
#[derive(Clone, Copy)]
pub struct Step {
    pub outcome: Outcome,
    pub channel: Channel,
    pub put: Option<usize>,
}

// What a datagram of `length` bytes comes to before anything is written: the channel `at`, and its step with rooms of `size` bytes. A record
// that no look finds is refused as a joiner that is not good.
pub fn moved(
    at: usize,
    size: u32,
    channel: Channel,
    header: BindingHeader,
    length: usize,
) -> Result<(usize, Step), Refusal>
    ensures { result ≡ moved_of at size channel header length }
{
    if can_move(at, size, channel, length) {
        let number = at as u32;
        let room = Room {
            start: room_start(size, number),
            size,
        };
        let piece = (length - BindingHeader::LENGTH) as u32;
        let step = steps::stepped(room, channel, header, piece);
        Ok((at, step))
    } else {
        Err(Refusal::NoJoiner)
    }
}

// The only place where a room's number meets its size. The room behind the last starts at the rooms' total.
pub fn room_start(size: u32, number: u32) -> usize
    ensures { result ≡ room_start size number }
{
    number as usize * size as usize
}

fn can_move(at: usize, size: u32, channel: Channel, length: usize) -> bool
    ensures { result ≡ can_move at size channel length }
{
    ((at < CHANNELS) & (size <= LARGEST_ROOM))
        & (((channel.held <= size) & (channel.last < COUNTERS))
            & ((BindingHeader::LENGTH <= length) & (length <= BindingHeader::LARGEST_DATAGRAM)))
}
