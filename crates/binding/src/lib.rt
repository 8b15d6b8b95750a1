// The UDP binding header of 000, annex A: what stands before each piece of a message, and how it is read.
// A message is cut into datagrams by `cutter`.
#![tactic(auto)]

mod cutter;

ghost use Rattle.std.specs.Prelude.{◌≡◌};
ghost use Rattle.binding.specs.Header.{part_of_code, header_of, heading_in};

pub use cutter::{LARGEST_MESSAGE, cut, pieces};
use refusal::Refusal;

// Which part of its message a datagram carries (000, Table 9). `Whole` is the table's "begin and end".
#[derive(Clone, Copy)]
pub enum MessagePart {
    Begin,
    Middle,
    End,
    Whole,
}

// The header before each piece. `sender` is platform times 256 plus channel; the version is not kept, as there is one.
#[derive(Clone, Copy)]
pub struct BindingHeader {
    pub part: MessagePart,
    pub sender: u16,
    pub counter: u16,
}

// How many values each field of the header has that stands behind another.
const PARTS: u32 = BindingHeader::PARTS as u32;

pub const SENDERS: u32 = BindingHeader::SENDERS as u32;

pub const COUNTERS: u32 = BindingHeader::COUNTERS as u32;

impl BindingHeader {
    pub const LENGTH: usize = 4;

    pub const VERSION: u8 = 0;

    // A part's code is below PARTS, a sender ID below SENDERS, and a counter below COUNTERS, which is M.
    pub const PARTS: usize = 4;

    pub const SENDERS: usize = 4096;

    pub const COUNTERS: usize = 65536;

    pub const LARGEST_PIECE: usize = 65503;

    pub const SMALLEST_DATAGRAM: usize = 5;

    pub const LARGEST_DATAGRAM: usize = 65507;

    pub fn new(part: MessagePart, sender: u16, counter: u16) -> BindingHeader
        ensures { result ≡ header_of part sender counter }
    {
        BindingHeader {
            part,
            sender,
            counter,
        }
    }

    // The header of a datagram, whose piece is all that follows it: its length is judged first, then the version. Every other field may have
    // every value.
    pub fn read(datagram: &[u8]) -> Result<BindingHeader, Refusal>
        ensures { result ≡ heading_in datagram.now }
    {
        let length = datagram.len();
        if (BindingHeader::SMALLEST_DATAGRAM <= length)
            & (length <= BindingHeader::LARGEST_DATAGRAM)
        {
            // One load: 000, A.4 has the fields of this number from its most significant bit on.
            let word = wire::number_at::<u32>(datagram, 0);
            if word / (PARTS * SENDERS * COUNTERS) == BindingHeader::VERSION as u32 {
                let part = part_of_code((word / (SENDERS * COUNTERS) % PARTS) as u8);
                let sender = (word / COUNTERS % SENDERS) as u16;
                let counter = (word % COUNTERS) as u16;
                Ok(BindingHeader::new(part, sender, counter))
            } else {
                Err(Refusal::DatagramVersion)
            }
        } else {
            Err(Refusal::DatagramLength)
        }
    }
}

fn part_of_code(code: u8) -> MessagePart
    ensures { result ≡ part_of_code code }
{
    match code {
        0 => MessagePart::Begin,
        1 => MessagePart::Middle,
        2 => MessagePart::End,
        _ => MessagePart::Whole,
    }
}
