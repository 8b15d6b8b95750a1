// When a message is refused: 01, "Numbers given back", 1 to 9.
ghost use Rattle.std.specs.Prelude.{◌≡◌, ◌-◌, length};
ghost use Rattle.message.specs.Header.{header_length, payload_in};
ghost use Rattle.message.specs.Platform.{reserved_id, payload_length};
ghost use Rattle.message.specs.Refusal.{frame_refusal, address_refusal, contents_refusal, read_refusal};

use crate::{Header, Message, Own, Status};

pub const TOO_SHORT: u32 = 1;

pub const WRONG_MARK: u32 = 2;

pub const WRONG_VERSION: u32 = 3;

pub const RESERVED_DOMAIN: u32 = 4;

pub const WRONG_SIZE: u32 = 5;

pub const WRONG_SENDER: u32 = 6;

pub const RESERVED_MESSAGE: u32 = 7;

pub const WRONG_LENGTH: u32 = 8;

pub const RESERVED_VALUE: u32 = 9;

// The number that refuses what is read, or 0.
pub fn read_refusal(own: Own, message: &[u8]) -> u32
    ensures { result ≡ read_refusal own.platform message.now }
{
    let frame = frame_refusal(message);
    if frame == 0 {
        let address = address_refusal(own, message);
        if address == 0 {
            contents_refusal(
                wire::number_at::<u8>(message, Header::DOMAIN_AT),
                wire::number_at::<u32>(message, Header::ID_AT),
                behind_header(message),
            )
        } else {
            address
        }
    } else {
        frame
    }
}

// 1 to 4.
pub fn frame_refusal(message: &[u8]) -> u32
    ensures { result ≡ frame_refusal message.now }
{
    if message.len() < Header::LENGTH {
        return TOO_SHORT;
    }
    if wire::number_at::<u16>(message, Header::MARK_AT) != Header::MARK {
        return WRONG_MARK;
    }
    if wire::number_at::<u8>(message, Header::VERSION_AT) != Header::VERSION {
        return WRONG_VERSION;
    }
    if Header::RESERVED_DOMAINS <= wire::number_at::<u8>(message, Header::DOMAIN_AT) {
        return RESERVED_DOMAIN;
    }
    0
}

// 5 and 6.
pub fn address_refusal(own: Own, message: &[u8]) -> u32
    ensures { result ≡ address_refusal own.platform message.now }
{
    if wire::number_at::<u32>(message, Header::PAYLOAD_SIZE_AT) as usize
        != payload_length(message)
    {
        return WRONG_SIZE;
    }
    if wire::number_at::<u32>(message, Header::PLATFORM_AT) == own.platform as u32 {
        return WRONG_SENDER;
    }
    0
}

// 7 to 9.
pub fn contents_refusal(domain: u8, id: u32, payload: &[u8]) -> u32
    ensures { result ≡ contents_refusal domain id payload.now }
{
    if domain != Header::PLATFORM_DOMAIN {
        return 0;
    }
    if reserved_id(id) {
        return RESERVED_MESSAGE;
    }
    if payload.len() != table_4_length(id) {
        return WRONG_LENGTH;
    }
    if id != Message::PLATFORM_STATUS {
        return 0;
    }
    if Status::RESERVED_STATES <= wire::number_at::<u32>(payload, 0) {
        return RESERVED_VALUE;
    }
    0
}

fn reserved_id(id: u32) -> bool
    ensures { result ≡ reserved_id id }
{
    (id == 0) | (Message::VERSIONED_DATA_PULL < id)
}

fn table_4_length(id: u32) -> usize
    ensures { result ≡ payload_length id }
{
    if id == Message::PLATFORM_STATUS_REQUEST {
        0
    } else {
        4
    }
}

fn payload_length(message: &[u8]) -> usize
    ensures { result ≡ length message.now - header_length }
{
    if Header::LENGTH <= message.len() {
        message.len() - Header::LENGTH
    } else {
        0
    }
}

// What stands behind the header; empty where the message is shorter.
pub fn behind_header(message: &[u8]) -> &[u8]
    ensures { result.now ≡ payload_in message.now }
{
    if Header::LENGTH <= message.len() {
        &message[Header::LENGTH..]
    } else {
        &message[..0]
    }
}
