// When a message of Issue 3 is refused: 01, "Numbers given back", 1 to 9, in 001's places and by 001's tables.
ghost use Rattle.std.specs.Prelude.{◌≡◌, ◌-◌, eqb, length};
ghost use Rattle.message3.specs.Header.{header_length3, payload_in3};
ghost use Rattle.message3.specs.Platform.{reserved_id3, payload_length3, has_status, reserved_in};
ghost use Rattle.message3.specs.Refusal.{frame_refusal3, address_refusal3, contents_refusal3, read_refusal3};

use crate::{Header3, Message3, reader, services};
use message::{Header, Own, Status};

// 001, Table 4: a status has two fields, most others have one.
const TWO_FIELDS: usize = 8;

const ONE_FIELD: usize = 4;

// The number that refuses what is read, or 0.
pub(crate) fn read_refusal(own: Own, message: &[u8]) -> u32
    ensures { result ≡ read_refusal3 own.platform message.now }
{
    let frame = frame_refusal(message);
    if frame == 0 {
        let address = address_refusal(own, message);
        if address == 0 {
            contents_refusal(
                reader::domain_in(message),
                wire::number_at::<u32>(message, Header3::ID_AT),
                behind_header(message),
            )
        } else {
            address
        }
    } else {
        frame
    }
}

// 1 to 4.
fn frame_refusal(message: &[u8]) -> u32
    ensures { result ≡ frame_refusal3 message.now }
{
    if message.len() < Header3::LENGTH {
        return message::TOO_SHORT;
    }
    if wire::number_at::<u16>(message, Header::MARK_AT) != Header::MARK {
        return message::WRONG_MARK;
    }
    if reader::version_in(message) != Header3::VERSION {
        return message::WRONG_VERSION;
    }
    if Header::RESERVED_DOMAINS <= reader::domain_in(message) {
        return message::RESERVED_DOMAIN;
    }
    0
}

// 5 and 6.
fn address_refusal(own: Own, message: &[u8]) -> u32
    ensures { result ≡ address_refusal3 own.platform message.now }
{
    if wire::number_at::<u32>(message, Header3::PAYLOAD_SIZE_AT) as usize
        != payload_length(message)
    {
        return message::WRONG_SIZE;
    }
    if wire::number_at::<u8>(message, Header3::PLATFORM_AT) == own.platform {
        return message::WRONG_SENDER;
    }
    0
}

// 7 to 9.
pub(crate) fn contents_refusal(domain: u8, id: u32, payload: &[u8]) -> u32
    ensures { result ≡ contents_refusal3 domain id payload.now }
{
    if domain != Header::PLATFORM_DOMAIN {
        return 0;
    }
    if reserved_id(id) {
        return message::RESERVED_MESSAGE;
    }
    if has_table_4_length(id, payload) {
        if reserved_value(id, payload) {
            message::RESERVED_VALUE
        } else {
            0
        }
    } else {
        message::WRONG_LENGTH
    }
}

fn reserved_id(id: u32) -> bool
    ensures { result ≡ reserved_id3 id }
{
    (id == 0) | (Message3::COMPOSITE_CHANGE_REQUEST_ACK < id)
}

fn has_table_4_length(id: u32, payload: &[u8]) -> bool
    ensures { result ≡ eqb (length payload.now) (payload_length3 id payload.now) }
{
    match id {
        Message3::PLATFORM_STATUS => payload.len() == TWO_FIELDS,
        Message3::PLATFORM_STATUS_REQUEST => payload.len() == 0,
        Message3::AVAILABILITY_STATUS => services::are_whole(payload),
        _ => payload.len() == ONE_FIELD,
    }
}

fn reserved_value(id: u32, payload: &[u8]) -> bool
    ensures { result ≡ reserved_in id payload.now }
{
    if id == Message3::AVAILABILITY_STATUS {
        return !services::are_known(payload);
    }
    has_status(id)
        & (Status::RESERVED_STATES <= wire::number_at::<u32>(payload, Message3::FIRST_AT))
}

// A status and an acknowledgement begin with a field that has reserved values.
fn has_status(id: u32) -> bool
    ensures { result ≡ has_status id }
{
    (id == Message3::PLATFORM_STATUS) | (id == Message3::COMPOSITE_CHANGE_REQUEST_ACK)
}

fn payload_length(message: &[u8]) -> usize
    ensures { result ≡ length message.now - header_length3 }
{
    message.len().saturating_sub(Header3::LENGTH)
}

// What stands behind the header; empty where the message is shorter.
pub(crate) fn behind_header(message: &[u8]) -> &[u8]
    ensures { result.now ≡ payload_in3 message.now }
{
    &message[Header3::LENGTH.min(message.len())..]
}
