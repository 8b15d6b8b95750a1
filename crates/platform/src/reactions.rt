// What a message comes to at a platform (01, "Platform states and replies"; 000, 6.3): what it was, what the platform knows
// after it, and the replies that are owed to its sender, one behind another.
use message::Status;
use states::States;

// The bytes of a reply: a header and a field of 32 bits.
pub const REPLY_LENGTH: usize = 24;

// What a platform keeps from one message to the next: the states, and its next own sequence number.
#[derive(Clone, Copy)]
pub struct Standing {
    pub states: States,
    pub next: u32,
}

// What a message was.
#[derive(Clone, Copy)]
pub enum Heard {
    Status(Status),
    Request,
    // Reported: an operation that its sender does not know.
    UnknownOperation(u32),
    PullOfAll,
    // The ID, and the number of its entry in the table.
    PullOfOne(u32, u16),
    // What was pulled is not versioned data here.
    NotVersionedData(u32),
    // The number of the operation's entry, and its payload: `length` bytes of the message from `start` on.
    Operation {
        entry: u16,
        start: usize,
        length: usize,
    },
    NotInTable(u32),
}

// A reply, with its sequence number.
#[derive(Clone, Copy)]
pub enum Reply {
    StatusUp(u32),
    PullAll(u32),
    // And the ID that is unknown here.
    Unknown(u32, u32),
}

#[derive(Clone, Copy)]
pub enum Owed {
    Nothing,
    One(Reply),
    Two(Reply, Reply),
}

// What a message comes to where the replies fit.
#[derive(Clone, Copy)]
pub struct Reaction {
    pub standing: Standing,
    pub heard: Heard,
    pub owed: Owed,
}
