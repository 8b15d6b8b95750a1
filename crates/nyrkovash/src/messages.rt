// Cutting, and messages read and written, as the C interface has them: a refusal's number, or 0 and what was asked for in what
// the caller lends, of which a refusal changes nothing.
ghost use Rattle.std.specs.Prelude.{◌≡◌};
ghost use Rattle.binding.specs.Cutting.{cut_into};
ghost use Rattle.message.specs.Writing.{output_after};
ghost use Rattle.nyrkovash.specs.PieceCalls.{pieces_number, pieces_given, cut_number, cut_given};
ghost use Rattle.nyrkovash.specs.MessageCalls.{write_number, write_given};

use message::{Own, Writing};

// How many pieces a message of `total` bytes is cut into: 50, or 0 and the number.
#[unsafe(no_mangle)]
pub extern "C" fn nyr_pieces(total: usize, size: usize, given: &mut usize) -> u32
    ensures value { result ≡ pieces_number total size }
    ensures given_after { given.new ≡ pieces_given total size given.old }
{
    match binding::pieces(total, size) {
        Err(refusal) => refusal.number(),
        Ok(count) => {
            *given = count;
            0
        }
    }
}

// Writes the datagram of one piece at the start of `out`: 50 to 52, or 0 and its length.
#[unsafe(no_mangle)]
pub extern "C" fn nyr_cut(
    message: &[u8],
    size: usize,
    sender: usize,
    first: usize,
    piece: usize,
    out: &mut [u8],
    written: &mut usize,
) -> u32
    ensures value { result ≡ cut_number message.now size sender first piece out.old }
    ensures out_after { out.new ≡ cut_into message.now size sender first piece out.old }
    ensures written_after { written.new ≡ cut_given message.now size sender first piece out.old written.old }
{
    match binding::cut(message, size, sender, first, piece, out) {
        Err(refusal) => refusal.number(),
        Ok(length) => {
            *written = length;
            0
        }
    }
}

// Writes a message of this platform at the start of `out`: 4, 5, 7 to 9, 10 for too short an output, or 0 and how many bytes
// were written.
#[unsafe(no_mangle)]
pub extern "C" fn nyr_write(
    own: u8,
    domain: u8,
    id: u32,
    sequence: u32,
    payload: &[u8],
    out: &mut [u8],
    written: &mut usize,
) -> u32
    ensures value { result ≡ write_number domain id payload.now out.old }
    ensures out_after { out.new ≡ output_after own domain id sequence payload.now out.old }
    ensures written_after { written.new ≡ write_given domain id payload.now out.old written.old }
{
    match message::write(Own { platform: own }, domain, id, sequence, payload, out) {
        Writing::Refused(number) => number,
        Writing::Written(length) => {
            *written = length;
            0
        }
    }
}
