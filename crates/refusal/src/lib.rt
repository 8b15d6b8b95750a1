// The numbers that refuse, by name: what the crates that stand on this one answer with; of the others each answers the number. Each
// number and its name are those of include/nyrkovash.h.
#![tactic(auto)]

ghost use Rattle.std.specs.Prelude.{◌≡◌};
ghost use Rattle.refusal.specs.Refusal.{Back, number_of};

use std::error::Error;
use std::fmt;

#[derive(Clone, Copy, Debug, PartialEq, Eq)]
pub enum Refusal {
    // A message, read or to be written.
    MessageShort = 1,
    Mark = 2,
    Version = 3,
    Domain = 4,
    PayloadSize = 5,
    Sender = 6,
    PlatformId = 7,
    PlatformLength = 8,
    PlatformValue = 9,
    // An output, or words that are lent, shorter than what must be written.
    NoRoom = 10,
    // A joiner and its datagrams.
    NoJoiner = 20,
    DatagramLength = 21,
    DatagramVersion = 22,
    NotSetUp = 23,
    // A type table, or sections that do not lie in it.
    TableLength = 30,
    TableCount = 31,
    TableEntry = 32,
    TableSize = 33,
    // A payload or words.
    InputShort = 40,
    InputLeft = 41,
    Value = 42,
    ArrayCount = 43,
    NoType = 44,
    OutputShort = 45,
    // A message to be cut.
    CannotCut = 50,
    NoPiece = 51,
    DatagramRoom = 52,
    // Requests, and what they are answered with.
    ListFull = 60,
    NotAwaited = 61,
    NoRequest = 62,
    // What a partner that speaks Issue 3 tells of its services.
    ServicesFull = 63,
}

impl Refusal {
    // A name is found by its number again.
    pub fn number(self) -> u32
        ensures value { result ≡ number_of self }
        ensures back { Back self }
    {
        self as u32
    }
}

impl fmt::Display for Refusal {
    fn fmt<W: fmt::Write>(&self, f: &mut fmt::Formatter<W>) -> fmt::Result {
        write!(f, "refused {}", self.number())
    }
}

impl Error for Refusal {}
