// What is to be written for a message of Issue 3, laid at the output's start where it fits.
ghost use Rattle.std.specs.Prelude.{◌≡◌, length};
ghost use Rattle.wire.specs.Bytes.{over};
ghost use Rattle.mixed.specs.declared.reactions.Room.TheVariants.{Enough};
ghost use Rattle.mixed.specs.Replies.{reply_length3, deed_bytes, fitting, room_for};

use crate::reactions::{Deed, Room};
use crate::replies::{FIELD_LENGTH, STATUS_LENGTH};
use crate::{replies, telling};
use message::Own;
use message3::Stamp;
use platform::Reply;

// As many of our services as the size field can tell of.
const MOST_OURS: usize = 536870912;

const START_UP: usize = 88;

pub(crate) fn room_for(ours: &[u64], deed: Deed, room: usize) -> Room
    ensures { result ≡ room_for ours.now deed room }
{
    match deed {
        Deed::One(reply) => fitting(length_of(reply), room),
        Deed::StartUp(_) => fitting(START_UP, room),
        Deed::TellAll(_) => {
            if MOST_OURS <= ours.len() {
                Room::Short(message::WRONG_SIZE)
            } else {
                fitting(telling::HEAD + telling::PAIR * ours.len(), room)
            }
        }
        Deed::TellOne { .. } => fitting(telling::HEAD + telling::PAIR, room),
        _ => Room::Enough(0),
    }
}

pub(crate) fn lay(
    own: Own,
    stamp: Stamp,
    composite: u32,
    ours: &[u64],
    deed: Deed,
    written: usize,
    out: &mut [u8],
)
    requires { room_for ours.now deed (length out.old) ≡ Enough written }
    ensures { out.new ≡ over out.old 0 (deed_bytes own.platform stamp composite ours.now deed) }
{
    match deed {
        Deed::One(reply) => replies::put_reply(own, stamp, composite, reply, out),
        Deed::StartUp(first) => replies::put_start_up(own, stamp, composite, first, out),
        Deed::TellAll(number) => telling::tell_all(own, stamp, number, ours, out),
        Deed::TellOne {
            number,
            id,
            available,
        } => telling::tell_one(own, stamp, number, id, available, out),
        _ => {}
    }
}

fn fitting(length: usize, room: usize) -> Room
    ensures { result ≡ fitting length room }
{
    if room < length {
        Room::Short(message::NO_ROOM)
    } else {
        Room::Enough(length)
    }
}

fn length_of(reply: Reply) -> usize
    ensures { result ≡ reply_length3 reply }
{
    match reply {
        Reply::StatusUp(_) => STATUS_LENGTH,
        _ => FIELD_LENGTH,
    }
}
