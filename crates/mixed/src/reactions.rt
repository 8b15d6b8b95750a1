// What a message of Issue 3 comes to (001, 6.3 and Table 4): what it was, what the platform knows after it, and what is to be
// written for it, replies or its sender's services.
use message::Status;
use message3::Agreement;
use platform::{Heard, Reply, Standing};

// What a message of Issue 3 was.
#[derive(Clone, Copy)]
pub enum Heard3 {
    // What both issues have, in Issue 6's words: a request, an unknown operation, a pull, an operation.
    Common(Heard),
    // And the ID of its composite.
    Status(Status, u32),
    // Of how many services it told.
    Services(u32),
    // Of which service it asked, or of all.
    ServicesRequest(u32),
    // An operation whose service is not available; this and the next two are reported, and nothing is owed.
    ServiceNotAvailable(u32),
    CompositeChange(u32),
    CompositeAnswer(Agreement),
}

// What is to be written. Services and replies are never written for the same message.
#[derive(Clone, Copy)]
pub enum Deed {
    Nothing,
    One(Reply),
    // Status, availability request and pull of all, from this own number on.
    StartUp(u32),
    // All our services, or one of them and whether it is available, under this number.
    TellAll(u32),
    TellOne {
        number: u32,
        id: u32,
        available: bool,
    },
    // The sender's services: what it told of them; all of them UNAVAILABLE.
    Note,
    MarkAll,
}

// What a message comes to where nothing refuses it.
#[derive(Clone, Copy)]
pub struct Reaction3 {
    pub standing: Standing,
    pub heard: Heard3,
    pub deed: Deed,
}

// Whether an output takes what is to be written: no, and the number that says why; or so many bytes.
#[derive(Drop)]
pub(crate) enum Room {
    Short(u32),
    Enough(usize),
}
