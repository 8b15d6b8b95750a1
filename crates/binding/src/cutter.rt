// Cutting: a message to send becomes datagrams, one call for each, of 000's annex A. Joining them again is the joiner's.
ghost use Rattle.std.specs.Prelude.{◌≡◌, true, cond, ◌<◌, ◌≤◌, ltb, length};
ghost use Rattle.wire.specs.Bytes.{over, written};
ghost use Rattle.binding.specs.declared.MessagePart.TheVariants.{Begin, Middle, End, Whole};
ghost use Rattle.binding.specs.Header.{header_length, senders, largest_piece, code_of, header_bytes};
ghost use Rattle.binding.specs.Cutting.{can_cut, can_head, piece_count, part_of_piece, counted_of, behind, made_in, made_of, cut_into};

use crate::{BindingHeader, COUNTERS, MessagePart, SENDERS};
use refusal::Refusal;

// The longest message that is cut.
pub const LARGEST_MESSAGE: usize = 65560;

// How many values each field of the header has that stands behind another.
const PARTS: u8 = BindingHeader::PARTS as u8;

// How many pieces a message of `total` bytes is cut into: 50, or the number.
pub fn pieces(total: usize, size: usize) -> Result<usize, Refusal>
    ensures { result ≡ counted_of total size }
{
    if can_cut(total, size) {
        Ok(piece_count(total, size))
    } else {
        Err(Refusal::CannotCut)
    }
}

// Writes the datagram of one piece, header included, at the start of `out`, and answers its length. `sender` and `first` are wider than
// their fields, so that one out of range is seen. All is decided before anything is written.
pub fn cut(
    message: &[u8],
    size: usize,
    sender: usize,
    first: usize,
    piece: usize,
    out: &mut [u8],
) -> Result<usize, Refusal>
    ensures answer { result ≡ made_of message.now size sender first piece (length out.old) }
    ensures output { out.new ≡ cut_into message.now size sender first piece out.old }
{
    let total = message.len();
    if can_cut(total, size) & can_head(sender, first) {
        if has_piece(total, size, piece) {
            let part = part_of_piece(total, size, piece);
            let counter = ((first + piece) % BindingHeader::COUNTERS) as u16;
            let header = BindingHeader::new(part, sender as u16, counter);
            put_datagram(header, message, piece * size, size, out)
        } else {
            Err(Refusal::NoPiece)
        }
    } else {
        Err(Refusal::CannotCut)
    }
}

fn can_cut(total: usize, size: usize) -> bool
    ensures { result ≡ can_cut total size }
{
    (1 <= total) & (total <= LARGEST_MESSAGE) & (1 <= size) & (size <= BindingHeader::LARGEST_PIECE)
}

fn can_head(sender: usize, first: usize) -> bool
    ensures { result ≡ can_head sender first }
{
    (sender < BindingHeader::SENDERS) & (first < BindingHeader::COUNTERS)
}

fn piece_count(total: usize, size: usize) -> usize
    requires { can_cut total size ≡ true }
    ensures { result ≡ piece_count total size }
{
    (total + (size - 1)) / size
}

// Whether there is such a piece, told without a division: it starts within the message. A piece number may be any, and there are
// no more pieces than bytes, so that is tested before anything is multiplied.
fn has_piece(total: usize, size: usize, piece: usize) -> bool
    requires { can_cut total size ≡ true }
    ensures { result ≡ ltb piece (piece_count total size) }
{
    if piece < total {
        piece * size < total
    } else {
        false
    }
}

fn part_of_piece(total: usize, size: usize, piece: usize) -> MessagePart
    requires { (can_cut total size ≡ true) × (piece < piece_count total size) }
    ensures { result ≡ part_of_piece (piece_count total size) piece }
{
    let last = total - piece * size <= size;
    if piece == 0 {
        part_of_first(last)
    } else {
        part_of_later(last)
    }
}

fn part_of_first(last: bool) -> MessagePart
    ensures { result ≡ cond last Whole Begin }
{
    if last {
        MessagePart::Whole
    } else {
        MessagePart::Begin
    }
}

fn part_of_later(last: bool) -> MessagePart
    ensures { result ≡ cond last End Middle }
{
    if last {
        MessagePart::End
    } else {
        MessagePart::Middle
    }
}

// The header, and behind it the bytes of `message` from `start` on, up to `size` of them.
fn put_datagram(
    header: BindingHeader,
    message: &[u8],
    start: usize,
    size: usize,
    out: &mut [u8],
) -> Result<usize, Refusal>
    requires sender_lt_senders { header.sender < senders }
    requires start_in_bounds { start ≤ length message.now }
    requires size_le_largest_piece { size ≤ largest_piece }
    ensures answer { result ≡ made_in (behind header message.now start size) (length out.old) }
    ensures output { out.new ≡ written out.old 0 (behind header message.now start size) }
{
    let count = wire::least(size, message.len() - start);
    let whole = BindingHeader::LENGTH + count;
    if whole <= out.len() {
        put_header(header, out);
        wire::put_run(
            out,
            BindingHeader::LENGTH,
            wire::part(message, start, count),
        );
        Ok(whole)
    } else {
        Err(Refusal::DatagramRoom)
    }
}

// The header is one number, so that it is one store: 000, A.4 has its fields from the most significant bit on.
fn put_header(header: BindingHeader, out: &mut [u8])
    requires sender_lt_senders { header.sender < senders }
    requires header_length_in_bounds { header_length ≤ length out.old }
    ensures { out.new ≡ over out.old 0 (header_bytes header) }
{
    let part = header.part;
    let marks = (BindingHeader::VERSION * PARTS + code_of(part)) as u32;
    wire::put_number::<u32>(
        out,
        0,
        (marks * SENDERS + header.sender as u32) * COUNTERS + header.counter as u32,
    );
}

fn code_of(part: MessagePart) -> u8
    ensures code { result ≡ code_of part }
    ensures small { result < 4 }
{
    match part {
        MessagePart::Begin => 0,
        MessagePart::Middle => 1,
        MessagePart::End => 2,
        MessagePart::Whole => 3,
    }
}
