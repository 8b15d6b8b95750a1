// ELI messages written: a message is laid into a lent output, or 4 to 10 is answered and nothing changes.
ghost use Rattle.std.specs.Prelude.{◌≡◌, length};
ghost use Rattle.wire.specs.Bytes.{written};
ghost use Rattle.message.specs.Header.{header_bytes};
ghost use Rattle.message.specs.Refusal.{write_refusal};
ghost use Rattle.message.specs.Writing.{write_of, output_after};

use crate::refusal::{RESERVED_DOMAIN, WRONG_SIZE};
use crate::{Header, Own, Writing, refusal};

// 01, "Numbers given back": an output shorter than what must be written. The others are `refusal`'s.
pub const NO_ROOM: u32 = 10;

// One more than the largest payload size.
pub const SIZE_LIMIT: usize = 4294967296;

// Writes a message of this platform at the output's start: numbers 4, 5 and 7 to 10, the lowest that applies.
pub fn write(
    own: Own,
    domain: u8,
    id: u32,
    sequence: u32,
    payload: &[u8],
    out: &mut [u8],
) -> Writing
    ensures answer { result ≡ write_of domain id payload.now (length out.old) }
    ensures output { out.new ≡ output_after own.platform domain id sequence payload.now out.old }
{
    let number = write_refusal(domain, id, payload, out.len());
    if number == 0 {
        let header = Header::new(
            domain,
            own.platform as u32,
            id,
            payload.len() as u32,
            sequence,
        );
        put_header(out, header);
        wire::put_run(out, Header::LENGTH, payload);
        Writing::Written(Header::LENGTH + payload.len())
    } else {
        Writing::Refused(number)
    }
}

// Writes a header at the output's start; where it does not fit nothing changes.
pub fn put_header(out: &mut [u8], header: Header)
    ensures { out.new ≡ written out.old 0 (header_bytes header) }
{
    if Header::LENGTH <= out.len() {
        wire::put_number::<u16>(out, Header::MARK_AT, Header::MARK);
        wire::put_number::<u8>(out, Header::VERSION_AT, Header::VERSION);
        wire::put_number::<u8>(out, Header::DOMAIN_AT, header.domain);
        wire::put_number::<u32>(out, Header::PLATFORM_AT, header.platform);
        wire::put_number::<u32>(out, Header::ID_AT, header.id);
        wire::put_number::<u32>(out, Header::PAYLOAD_SIZE_AT, header.payload_size);
        wire::put_number::<u32>(out, Header::SEQUENCE_AT, header.sequence);
    }
}

// The number that refuses what is to be written, or 0.
fn write_refusal(domain: u8, id: u32, payload: &[u8], room: usize) -> u32
    ensures { result ≡ write_refusal domain id payload.now room }
{
    if Header::RESERVED_DOMAINS <= domain {
        return RESERVED_DOMAIN;
    }
    if SIZE_LIMIT <= payload.len() {
        return WRONG_SIZE;
    }
    let contents = refusal::contents_refusal(domain, id, payload);
    if contents == 0 {
        if room < Header::LENGTH + payload.len() {
            NO_ROOM
        } else {
            0
        }
    } else {
        contents
    }
}
