// The replies that Issue 3 is owed, laid at the output's start, one behind another: 001, Tables 3 and 4.
ghost use Rattle.std.specs.Prelude.{◌≡◌, ◌+◌, ◌≤◌, length};
ghost use Rattle.wire.specs.Bytes.{over};
ghost use Rattle.mixed.specs.Replies.{field_length, status_length, start_up_length, field_message, status_message, reply_length3, reply_bytes3, start_up_bytes};

use crate::reacting::ALL_SERVICES;
use message::Own;
use message3::{Header3, Message3, Stamp};
use platform::{ALL_DATA, Reply};

// A message with one field, and a status, which has two.
pub(crate) const FIELD_LENGTH: usize = 28;

pub(crate) const STATUS_LENGTH: usize = 32;

// The payloads' lengths.
const ONE_FIELD: u32 = 4;

const TWO_FIELDS: u32 = 8;

const STATE_UP: u32 = 1;

// Where the second field stands, or the first service of a status of services.
const SECOND_AT: usize = 28;

pub(crate) fn put_reply(own: Own, stamp: Stamp, composite: u32, reply: Reply, out: &mut [u8])
    requires { reply_length3 reply ≤ length out.old }
    ensures { out.new ≡ over out.old 0 (reply_bytes3 own.platform stamp composite reply) }
{
    match reply {
        Reply::StatusUp(number) => put_status(own, stamp, composite, number, out),
        Reply::PullAll(number) => put_field(
            own,
            stamp,
            Message3::VERSIONED_DATA_PULL,
            number,
            ALL_DATA,
            out,
        ),
        Reply::Unknown(number, id) => {
            put_field(own, stamp, Message3::UNKNOWN_OPERATION, number, id, out)
        }
    }
}

// Three own numbers, from this one on: status, availability request, pull.
pub(crate) fn put_start_up(own: Own, stamp: Stamp, composite: u32, first: u32, out: &mut [u8])
    requires { start_up_length ≤ length out.old }
    ensures { out.new ≡ over out.old 0 (start_up_bytes own.platform stamp composite first) }
{
    let second = pending::drawn(first);
    let third = pending::drawn(second);
    put_status(own, stamp, composite, first, out);
    lay_field(
        own,
        stamp,
        Message3::AVAILABILITY_STATUS_REQUEST,
        second,
        ALL_SERVICES,
        STATUS_LENGTH,
        out,
    );
    lay_field(
        own,
        stamp,
        Message3::VERSIONED_DATA_PULL,
        third,
        ALL_DATA,
        STATUS_LENGTH + FIELD_LENGTH,
        out,
    );
}

fn lay_field(own: Own, stamp: Stamp, id: u32, number: u32, field: u32, at: usize, out: &mut [u8])
    requires { at + field_length ≤ length out.old }
    ensures { out.new ≡ over out.old at (field_message own.platform stamp id number field) }
{
    put_field(own, stamp, id, number, field, &mut out[at..]);
}

// A platform-level message with one field.
fn put_field(own: Own, stamp: Stamp, id: u32, number: u32, field: u32, out: &mut [u8])
    requires { field_length ≤ length out.old }
    ensures { out.new ≡ over out.old 0 (field_message own.platform stamp id number field) }
{
    message3::put_platform_header(own, stamp, id, ONE_FIELD, number, out);
    wire::put_number::<u32>(out, Header3::LENGTH, field);
}

// UP, and our composite's ID.
fn put_status(own: Own, stamp: Stamp, composite: u32, number: u32, out: &mut [u8])
    requires { status_length ≤ length out.old }
    ensures { out.new ≡ over out.old 0 (status_message own.platform stamp composite number) }
{
    message3::put_platform_header(
        own,
        stamp,
        Message3::PLATFORM_STATUS,
        TWO_FIELDS,
        number,
        out,
    );
    wire::put_number::<u32>(out, Header3::LENGTH, STATE_UP);
    wire::put_number::<u32>(out, SECOND_AT, composite);
}
