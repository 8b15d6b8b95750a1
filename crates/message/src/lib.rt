// ELI messages: the generic header of 000, Table 2, the platform-level messages of Tables 3 and 4, and the numbers 1 to 9
// that refuse bytes. `reader` reads a message and `writer` writes one: what both answer is declared here.
#![tactic(auto)]

mod kind;
mod reader;
mod refusal;
mod writer;

ghost use Rattle.std.specs.Prelude.{◌≡◌};
ghost use Rattle.message.specs.Header.{header_in};

pub use kind::status_of;
pub use reader::{payload, read};
pub use refusal::{
    RESERVED_DOMAIN, RESERVED_MESSAGE, RESERVED_VALUE, TOO_SHORT, WRONG_LENGTH, WRONG_MARK,
    WRONG_SENDER, WRONG_SIZE, WRONG_VERSION, address_refusal, behind_header, contents_refusal,
    frame_refusal, read_refusal,
};
pub use writer::{NO_ROOM, SIZE_LIMIT, put_header, write};

// The caller's own values. 000, 6.3: a platform is one of 256 (docs/DECISIONS.md, 4).
#[derive(Clone, Copy)]
pub struct Own {
    pub platform: u8,
}

// 000, Table 2, but for mark and version, which are the same in every message.
#[derive(Clone, Copy)]
pub struct Header {
    pub domain: u8,
    pub platform: u32,
    pub id: u32,
    pub payload_size: u32,
    pub sequence: u32,
}

// 000, Table 4.
#[derive(Clone, Copy)]
pub enum Status {
    Down,
    Up,
}

// 000, Table 3; an operation is any message of domain 1, whose ID is the header's.
#[derive(Clone, Copy)]
pub enum Message {
    PlatformStatus(Status),
    PlatformStatusRequest,
    UnknownOperation(u32),
    VersionedDataPull(u32),
    Operation,
}

#[derive(Clone, Copy)]
pub enum Reading {
    Refused(u32),
    // The payload is the `length` bytes from `start` on: `payload` hands them back.
    Read {
        header: Header,
        message: Message,
        start: usize,
        length: usize,
    },
}

#[derive(Clone, Copy)]
pub enum Writing {
    Refused(u32),
    // So many bytes were written.
    Written(usize),
}

impl Own {
    pub const PLATFORMS: u32 = 256;
}

impl Status {
    // DOWN is 0 and UP is 1; from here on the values are reserved.
    pub const RESERVED_STATES: u32 = 2;
}

impl Message {
    // 000, Table 3: 0, and what is above the last, is reserved.
    pub const PLATFORM_STATUS: u32 = 1;

    pub const PLATFORM_STATUS_REQUEST: u32 = 2;

    pub const UNKNOWN_OPERATION: u32 = 3;

    pub const VERSIONED_DATA_PULL: u32 = 4;
}

impl Header {
    pub const LENGTH: usize = 20;

    pub const MARK: u16 = 0xEC0A;

    pub const VERSION: u8 = 2;

    pub const PLATFORM_DOMAIN: u8 = 0;

    pub const OPERATION_DOMAIN: u8 = 1;

    pub const RESERVED_DOMAINS: u8 = 2;
    // The byte at which each field starts.
    pub const MARK_AT: usize = 0;

    pub const VERSION_AT: usize = 2;

    pub const DOMAIN_AT: usize = 3;

    pub const PLATFORM_AT: usize = 4;

    pub const ID_AT: usize = 8;

    pub const PAYLOAD_SIZE_AT: usize = 12;

    pub const SEQUENCE_AT: usize = 16;

    pub fn new(domain: u8, platform: u32, id: u32, payload_size: u32, sequence: u32) -> Self
        ensures { result ≡ record { domain = domain; platform = platform; id = id; payload_size = payload_size; sequence = sequence } }
    {
        Header {
            domain,
            platform,
            id,
            payload_size,
            sequence,
        }
    }

    // The fields as they stand in the bytes, whatever mark and version say. A byte past the end reads as 0.
    pub(crate) fn of_bytes(message: &[u8]) -> Self
        ensures { result ≡ header_in message.now }
    {
        Header::new(
            wire::number_at::<u8>(message, Header::DOMAIN_AT),
            wire::number_at::<u32>(message, Header::PLATFORM_AT),
            wire::number_at::<u32>(message, Header::ID_AT),
            wire::number_at::<u32>(message, Header::PAYLOAD_SIZE_AT),
            wire::number_at::<u32>(message, Header::SEQUENCE_AT),
        )
    }
}
