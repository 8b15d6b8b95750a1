// ELI messages of Issue 3 read: header, kind and where the payload lies, or the number 1 to 9 that refuses the bytes.
ghost use Rattle.std.specs.Prelude.{◌≡◌};
ghost use Rattle.message3.specs.Header.{version_in3, domain_in3};
ghost use Rattle.message3.specs.Reading.{read_out3, read_of3, payload_of3};

use crate::{Header3, Message3, Reading3, kind, refusal};
use message::Own;

// Reads a message at this platform: numbers 1 to 9, the lowest that applies.
pub fn read(own: Own, message: &[u8]) -> Reading3
    ensures { result ≡ read_of3 own.platform message.now }
{
    let number = refusal::read_refusal(own, message);
    if number == 0 {
        read_out(message)
    } else {
        Reading3::Refused(number)
    }
}

// The payload of a message that was read, as a part of the bytes it was read from; empty for one that was refused.
pub fn payload(message: &[u8], reading: Reading3) -> &[u8]
    ensures { result.now ≡ payload_of3 message.now reading }
{
    match reading {
        Reading3::Read { start, length, .. } => wire::part(message, start, length),
        Reading3::Refused(_) => &message[..0],
    }
}

// The upper half of their byte, and the lower.
pub(crate) fn version_in(message: &[u8]) -> u8
    ensures { result ≡ version_in3 message.now }
{
    wire::number_at::<u8>(message, Header3::VERSION_AND_DOMAIN_AT) / Header3::HALF_BYTE
}

pub(crate) fn domain_in(message: &[u8]) -> u8
    ensures { result ≡ domain_in3 message.now }
{
    wire::number_at::<u8>(message, Header3::VERSION_AND_DOMAIN_AT) % Header3::HALF_BYTE
}

fn read_out(message: &[u8]) -> Reading3
    ensures { result ≡ read_out3 message.now }
{
    let header = Header3::of_bytes(message);
    let behind = refusal::behind_header(message);
    let domain = header.domain;
    let size = header.payload_size;
    Reading3::Read {
        header,
        message: kind::message_of(
            domain,
            header.id,
            wire::number_at::<u32>(behind, Message3::FIRST_AT),
            wire::number_at::<u32>(behind, Message3::SECOND_AT),
        ),
        start: Header3::LENGTH,
        length: size as usize,
    }
}
