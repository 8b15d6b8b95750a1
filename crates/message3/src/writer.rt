// ELI messages of Issue 3 written: a message is laid into a lent output, or 4 to 10 is answered and nothing changes.
ghost use Rattle.std.specs.Prelude.{◌≡◌, ◌≤◌, ◌<◌, length};
ghost use Rattle.wire.specs.Bytes.{over, written};
ghost use Rattle.message.specs.Header.{platform_domain, reserved_domains};
ghost use Rattle.message3.specs.Header.{header_length3, header_of3, header_bytes3};
ghost use Rattle.message3.specs.Refusal.{write_refusal3};
ghost use Rattle.message3.specs.Writing.{write_of3, output_after3};

use crate::{Header3, Stamp, refusal};
use message::{Header, Own, Writing};

// Writes a message of this platform at the output's start: numbers 4, 5 and 7 to 10, the lowest that applies.
pub fn write(
    own: Own,
    stamp: Stamp,
    domain: u8,
    id: u32,
    sequence: u32,
    payload: &[u8],
    out: &mut [u8],
) -> Writing
    ensures answer { result ≡ write_of3 domain id payload.now (length out.old) }
    ensures output { out.new ≡ output_after3 own.platform stamp domain id sequence payload.now out.old }
{
    let number = write_refusal(domain, id, payload, out.len());
    if number == 0 {
        let header = Header3::new(
            domain,
            own.platform,
            id,
            stamp,
            payload.len() as u32,
            sequence,
        );
        put_header(out, header);
        wire::put_run(out, Header3::LENGTH, payload);
        Writing::Written(Header3::LENGTH + payload.len())
    } else {
        Writing::Refused(number)
    }
}

// Writes the header of a platform-level message of this platform at the output's start, for a payload of this size; where it does
// not fit nothing changes.
pub fn put_platform_header(
    own: Own,
    stamp: Stamp,
    id: u32,
    payload_size: u32,
    sequence: u32,
    out: &mut [u8],
)
    ensures { out.new
        ≡ written out.old 0 (header_bytes3 (header_of3 platform_domain own.platform id stamp payload_size sequence)) }
{
    if Header3::LENGTH <= out.len() {
        let header = Header3::new(
            Header::PLATFORM_DOMAIN,
            own.platform,
            id,
            stamp,
            payload_size,
            sequence,
        );
        put_header(out, header);
    }
}

// Writes a header at the output's start.
fn put_header(out: &mut [u8], header: Header3)
    requires header_length3_in_bounds { header_length3 ≤ length out.old }
    requires domain_lt_reserved_domains { header.domain < reserved_domains }
    ensures { out.new ≡ over out.old 0 (header_bytes3 header) }
{
    let both = Header3::VERSION * Header3::HALF_BYTE + header.domain;
    wire::put_number::<u16>(out, Header::MARK_AT, Header::MARK);
    wire::put_number::<u8>(out, Header3::VERSION_AND_DOMAIN_AT, both);
    wire::put_number::<u8>(out, Header3::PLATFORM_AT, header.platform);
    wire::put_number::<u32>(out, Header3::ID_AT, header.id);
    wire::put_number::<u32>(out, Header3::SECONDS_AT, header.seconds);
    wire::put_number::<u32>(out, Header3::NANOSECONDS_AT, header.nanoseconds);
    wire::put_number::<u32>(out, Header3::PAYLOAD_SIZE_AT, header.payload_size);
    wire::put_number::<u32>(out, Header3::SEQUENCE_AT, header.sequence);
}

// The number that refuses what is to be written, or 0.
fn write_refusal(domain: u8, id: u32, payload: &[u8], room: usize) -> u32
    ensures { result ≡ write_refusal3 domain id payload.now room }
{
    if Header::RESERVED_DOMAINS <= domain {
        return message::RESERVED_DOMAIN;
    }
    if message::SIZE_LIMIT <= payload.len() {
        return message::WRONG_SIZE;
    }
    let contents = refusal::contents_refusal(domain, id, payload);
    if contents == 0 {
        if room < Header3::LENGTH + payload.len() {
            message::NO_ROOM
        } else {
            0
        }
    } else {
        contents
    }
}
