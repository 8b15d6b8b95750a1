// ELI messages read: header, kind and where the payload lies, or the number 1 to 9 that refuses the bytes.
ghost use Rattle.std.specs.Prelude.{◌≡◌};
ghost use Rattle.message.specs.Reading.{reading_out, read_of, payload_of};

use crate::{Header, Own, Reading, kind, refusal};

// Reads a message at this platform: numbers 1 to 9, the lowest that applies.
pub fn read(own: Own, message: &[u8]) -> Reading
    ensures { result ≡ read_of own.platform message.now }
{
    let number = refusal::read_refusal(own, message);
    if number == 0 {
        read_out(message)
    } else {
        Reading::Refused(number)
    }
}

// The payload of a message that was read, as a part of the bytes it was read from; empty for one that was refused.
pub fn payload(message: &[u8], reading: Reading) -> &[u8]
    ensures { result.now ≡ payload_of message.now reading }
{
    match reading {
        Reading::Read {
            header: _,
            message: _,
            start,
            length,
        } => wire::part(message, start, length),
        Reading::Refused(_) => &message[..0],
    }
}

fn read_out(message: &[u8]) -> Reading
    ensures { result ≡ reading_out message.now }
{
    let header = Header::of_bytes(message);
    let domain = header.domain;
    let size = header.payload_size;
    Reading::Read {
        header,
        message: kind::message_of(
            domain,
            header.id,
            wire::number_at::<u32>(refusal::behind_header(message), 0),
        ),
        start: Header::LENGTH,
        length: size as usize,
    }
}
