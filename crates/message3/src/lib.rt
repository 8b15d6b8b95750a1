// ELI messages of Issue 3: the generic header of 001, Table 2, the platform-level messages of Tables 3 and 4, and the numbers 1 to 9
// that refuse bytes. `reader` reads a message and `writer` writes one: what both answer is declared here. What Issue 3 has in
// common with Issue 6 is `message`'s: the mark, the domains, UP and DOWN, and the numbers.
#![tactic(auto)]

mod kind;
mod reader;
mod refusal;
mod services;
mod writer;

ghost use Rattle.std.specs.Prelude.{◌≡◌};
ghost use Rattle.message3.specs.Header.{header_of3, header_in3};

use message::Status;
pub use reader::{payload, read};
pub use writer::{put_platform_header, write};

// When a message is sent: 001, Table 2. Any two numbers are a timestamp.
#[derive(Clone, Copy)]
pub struct Stamp {
    pub seconds: u32,
    pub nanoseconds: u32,
}

// 001, Table 2, but for mark and version, which are the same in every message.
#[derive(Clone, Copy)]
pub struct Header3 {
    pub domain: u8,
    pub platform: u8,
    pub id: u32,
    pub seconds: u32,
    pub nanoseconds: u32,
    pub payload_size: u32,
    pub sequence: u32,
}

// 001, Table 4: what a platform says to a change of its composite.
#[derive(Clone, Copy)]
pub enum Agreement {
    Disagree,
    Agree,
}

// 001, Table 3; an operation is any message of domain 1, whose ID is the header's. A status tells the composite's ID too, a status of
// services how many pairs of ID and state its payload has.
#[derive(Clone, Copy)]
pub enum Message3 {
    PlatformStatus(Status, u32),
    PlatformStatusRequest,
    AvailabilityStatus(u32),
    AvailabilityStatusRequest(u32),
    UnknownOperation(u32),
    ServiceNotAvailable(u32),
    VersionedDataPull(u32),
    CompositeChangeRequest(u32),
    CompositeChangeRequestAck(Agreement),
    Operation,
}

#[derive(Clone, Copy)]
pub enum Reading3 {
    Refused(u32),
    // The payload is the `length` bytes from `start` on: `payload` hands them back.
    Read {
        header: Header3,
        message: Message3,
        start: usize,
        length: usize,
    },
}

impl Message3 {
    // 001, Table 3: 0, and what is above the last, is reserved.
    pub const PLATFORM_STATUS: u32 = 1;

    pub const PLATFORM_STATUS_REQUEST: u32 = 2;

    pub const AVAILABILITY_STATUS: u32 = 3;

    pub const AVAILABILITY_STATUS_REQUEST: u32 = 4;

    pub const UNKNOWN_OPERATION: u32 = 5;

    pub const SERVICE_NOT_AVAILABLE: u32 = 6;

    pub const VERSIONED_DATA_PULL: u32 = 7;

    pub const COMPOSITE_CHANGE_REQUEST: u32 = 8;

    pub const COMPOSITE_CHANGE_REQUEST_ACK: u32 = 9;
    // The byte of the payload at which each field starts: 001, Table 4.
    pub const FIRST_AT: usize = 0;

    pub const SECOND_AT: usize = 4;
}

impl Header3 {
    pub const LENGTH: usize = 24;

    pub const VERSION: u8 = 1;
    // Version and domain share a byte: the version is how many of these, the domain what is left.
    pub const HALF_BYTE: u8 = 16;
    // The byte at which each field starts; the mark's is 0.
    pub const VERSION_AND_DOMAIN_AT: usize = 2;

    pub const PLATFORM_AT: usize = 3;

    pub const ID_AT: usize = 4;

    pub const SECONDS_AT: usize = 8;

    pub const NANOSECONDS_AT: usize = 12;

    pub const PAYLOAD_SIZE_AT: usize = 16;

    pub const SEQUENCE_AT: usize = 20;

    pub fn new(
        domain: u8,
        platform: u8,
        id: u32,
        stamp: Stamp,
        payload_size: u32,
        sequence: u32,
    ) -> Self
        ensures { result ≡ header_of3 domain platform id stamp payload_size sequence }
    {
        Header3 {
            domain,
            platform,
            id,
            seconds: stamp.seconds,
            nanoseconds: stamp.nanoseconds,
            payload_size,
            sequence,
        }
    }

    // The fields as they stand in the bytes, whatever mark and version say. A byte past the end reads as 0.
    pub(crate) fn of_bytes(message: &[u8]) -> Self
        ensures { result ≡ header_in3 message.now }
    {
        Header3 {
            domain: reader::domain_in(message),
            platform: wire::number_at::<u8>(message, Header3::PLATFORM_AT),
            id: wire::number_at::<u32>(message, Header3::ID_AT),
            seconds: wire::number_at::<u32>(message, Header3::SECONDS_AT),
            nanoseconds: wire::number_at::<u32>(message, Header3::NANOSECONDS_AT),
            payload_size: wire::number_at::<u32>(message, Header3::PAYLOAD_SIZE_AT),
            sequence: wire::number_at::<u32>(message, Header3::SEQUENCE_AT),
        }
    }
}
