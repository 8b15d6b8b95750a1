// One channel's step: 01, Joining, steps 1 to 5, on one record, before anything is written.
ghost use Rattle.std.specs.Prelude.{cond, ◌≡◌, ◌+◌, ◌^◌, ◌<◌, ◌≤◌, eqb};
ghost use Rattle.binding.specs.Header.{counters};
ghost use Rattle.channel.specs.Channel.{Steppable, missed_of, repeated, noted_of, holding, behind_of, stray_of, too_long};
ghost use Rattle.channel.specs.Channel.{whole_of, begun_of, joined_of, followed_of, placed_of, stepped_of};

use crate::{Channel, Outcome, Room, Slice, Step};
use binding::{BindingHeader, COUNTERS, MessagePart};

// What a datagram with a piece of `length` bytes does to its channel.
pub(crate) fn stepped(room: Room, channel: Channel, header: BindingHeader, length: u32) -> Step
    requires { Steppable room channel length }
    ensures { result ≡ stepped_of room channel header.part header.counter length }
{
    let counter = header.counter as u32;
    if is_repeated(channel, counter) {
        Step {
            outcome: Outcome::Repeated,
            channel,
            put: None,
        }
    } else {
        let missed = missed(channel, counter);
        let part = header.part;
        // A branch of its own, so that where a piece goes does not wait for the counter.
        if missed == 0 {
            placed(room, noted(channel, counter, missed), part, length, missed)
        } else {
            after_loss(room, noted(channel, counter, missed), part, length, missed)
        }
    }
}

// Step 1.
fn is_repeated(channel: Channel, counter: u32) -> bool
    ensures { result ≡ repeated channel counter }
{
    channel.seen & (counter == channel.last)
}

// Step 2: how many datagrams of the channel did not come.
fn missed(channel: Channel, counter: u32) -> u32
    requires { (channel.last < counters) × (counter < counters) }
    ensures { result ≡ missed_of channel counter }
{
    if channel.seen {
        (counter + COUNTERS - (channel.last + 1)) % COUNTERS
    } else {
        0
    }
}

// Step 2: the counter is noted, and where datagrams are missed what was held is dropped.
fn noted(channel: Channel, counter: u32, missed: u32) -> Channel
    requires { missed ≡ missed_of channel counter }
    ensures { result ≡ noted_of channel counter }
{
    Channel {
        sender: channel.sender,
        seen: true,
        last: counter,
        held: kept(channel.held, missed),
    }
}

fn kept(held: u32, missed: u32) -> u32
    ensures { result ≡ cond (eqb missed 0) held 0 }
{
    if missed == 0 { held } else { 0 }
}

// Steps 3 to 5, on the record as noted.
fn placed(room: Room, channel: Channel, part: MessagePart, length: u32, missed: u32) -> Step
    requires { Steppable room channel length }
    ensures { result ≡ placed_of room channel part length missed }
{
    match part {
        MessagePart::Whole => whole(channel, length, missed),
        MessagePart::Begin => begun(room, channel, length, missed),
        MessagePart::Middle => followed(false, room, channel, length, missed),
        MessagePart::End => followed(true, room, channel, length, missed),
    }
}

// Steps 3 to 5 where datagrams are missed: nothing is held.
fn after_loss(room: Room, channel: Channel, part: MessagePart, length: u32, missed: u32) -> Step
    requires { channel.held ≡ 0 }
    ensures { result ≡ placed_of room channel part length missed }
{
    match part {
        MessagePart::Whole => whole(channel, length, missed),
        MessagePart::Begin => begun(room, channel, length, missed),
        MessagePart::Middle => stray(channel, missed),
        MessagePart::End => stray(channel, missed),
    }
}

// Step 3.
fn whole(channel: Channel, length: u32, missed: u32) -> Step
    ensures { result ≡ whole_of channel length missed }
{
    let emptied = holding(channel, 0);
    Step {
        outcome: Outcome::Delivered {
            missed,
            slice: Slice::Datagram {
                start: BindingHeader::LENGTH,
                length: length as usize,
            },
        },
        channel: emptied,
        put: None,
    }
}

// Step 4.
fn begun(room: Room, channel: Channel, length: u32, missed: u32) -> Step
    ensures { result ≡ begun_of room channel length missed }
{
    if length <= room.size {
        let started = holding(channel, length);
        Step {
            outcome: Outcome::Held {
                missed,
                held: length,
            },
            channel: started,
            put: Some(room.start),
        }
    } else {
        too_long(channel, missed)
    }
}

// Step 5: a middle, or where `ends` an end.
fn followed(ends: bool, room: Room, channel: Channel, length: u32, missed: u32) -> Step
    requires { Steppable room channel length }
    ensures { result ≡ followed_of ends room channel length missed }
{
    if channel.held == 0 {
        return stray(channel, missed);
    }
    if channel.held + length <= room.size {
        joined(ends, room, channel, length, missed)
    } else {
        too_long(channel, missed)
    }
}

fn joined(ends: bool, room: Room, channel: Channel, length: u32, missed: u32) -> Step
    requires { Steppable room channel length }
    ensures { result ≡ joined_of ends room channel length missed }
{
    let total = channel.held + length;
    let put = behind(room, channel.held);
    if ends {
        let done = holding(channel, 0);
        Step {
            outcome: Outcome::Delivered {
                missed,
                slice: Slice::Rooms {
                    start: room.start,
                    length: total as usize,
                },
            },
            channel: done,
            put,
        }
    } else {
        let grown = holding(channel, total);
        Step {
            outcome: Outcome::Held {
                missed,
                held: total,
            },
            channel: grown,
            put,
        }
    }
}

fn behind(room: Room, held: u32) -> Option<usize>
    requires { (room.start + room.size < 2 ^ 64) × (held ≤ room.size) }
    ensures { result ≡ behind_of room held }
{
    Some(room.start + held as usize)
}

fn stray(channel: Channel, missed: u32) -> Step
    ensures { result ≡ stray_of channel missed }
{
    Step {
        outcome: Outcome::Stray { missed },
        channel,
        put: None,
    }
}

fn too_long(channel: Channel, missed: u32) -> Step
    ensures { result ≡ too_long channel missed }
{
    let dropped = holding(channel, 0);
    Step {
        outcome: Outcome::TooLong { missed },
        channel: dropped,
        put: None,
    }
}

fn holding(channel: Channel, held: u32) -> Channel
    ensures { result ≡ holding channel held }
{
    Channel {
        sender: channel.sender,
        seen: channel.seen,
        last: channel.last,
        held,
    }
}
