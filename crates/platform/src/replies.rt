// The replies that are owed, laid one behind another into the output.
ghost use Rattle.std.specs.Prelude.{◌≡◌, ◌+◌, ◌≤◌, length};
ghost use Rattle.wire.specs.Bytes.{over, written};
ghost use Rattle.platform.specs.Replies.{reply_id, reply_number, reply_field, reply_bytes, reply_length, owed_bytes, owed_length};

use crate::reactions::{Owed, REPLY_LENGTH, Reply};
use message::{Header, Message, Own};

const FIELD_LENGTH: u32 = 4;

const STATE_UP: u32 = 1;

// The ID that stands for all versioned data.
pub const ALL_DATA: u32 = 0xFFFF_FFFF;

pub(crate) fn length_of(owed: Owed) -> usize
    ensures { result ≡ owed_length owed }
{
    match owed {
        Owed::Nothing => 0,
        Owed::One(_) => REPLY_LENGTH,
        Owed::Two(_, _) => REPLY_LENGTH + REPLY_LENGTH,
    }
}

// Lays all replies at the output's start; where they do not fit nothing changes.
pub(crate) fn lay(own: Own, owed: Owed, out: &mut [u8])
    ensures { out.new ≡ written out.old 0 (owed_bytes own.platform owed) }
{
    if length_of(owed) <= out.len() {
        match owed {
            Owed::Nothing => {}
            Owed::One(reply) => put_reply(own, reply, out),
            Owed::Two(first, second) => {
                lay_reply(own, first, 0, out);
                lay_reply(own, second, REPLY_LENGTH, out);
            }
        }
    }
}

fn lay_reply(own: Own, reply: Reply, at: usize, out: &mut [u8])
    requires { at + reply_length ≤ length out.old }
    ensures { out.new ≡ over out.old at (reply_bytes own.platform reply) }
{
    put_reply(own, reply, &mut out[at..]);
}

// Writes a reply at the output's start; where it does not fit nothing changes.
pub(crate) fn put_reply(own: Own, reply: Reply, out: &mut [u8])
    ensures { out.new ≡ written out.old 0 (reply_bytes own.platform reply) }
{
    if REPLY_LENGTH <= out.len() {
        let header = Header::new(
            Header::PLATFORM_DOMAIN,
            own.platform as u32,
            id_of(reply),
            FIELD_LENGTH,
            number_of(reply),
        );
        message::put_header(out, header);
        wire::put_number::<u32>(out, Header::LENGTH, field_of(reply));
    }
}

fn id_of(reply: Reply) -> u32
    ensures { result ≡ reply_id reply }
{
    match reply {
        Reply::StatusUp(_) => Message::PLATFORM_STATUS,
        Reply::PullAll(_) => Message::VERSIONED_DATA_PULL,
        Reply::Unknown(_, _) => Message::UNKNOWN_OPERATION,
    }
}

fn number_of(reply: Reply) -> u32
    ensures { result ≡ reply_number reply }
{
    match reply {
        Reply::StatusUp(number) | Reply::PullAll(number) | Reply::Unknown(number, _) => number,
    }
}

fn field_of(reply: Reply) -> u32
    ensures { result ≡ reply_field reply }
{
    match reply {
        Reply::StatusUp(_) => STATE_UP,
        Reply::PullAll(_) => ALL_DATA,
        Reply::Unknown(_, id) => id,
    }
}
