// What a message comes to: what it was, the states and the own number after it, and the replies that are owed.
ghost use Rattle.std.specs.Prelude.{◌≡◌};
ghost use Rattle.platform.specs.Reaction.{operation_for, operation_in, is_data, silent, replied, noted};
ghost use Rattle.platform.specs.Reaction.{coming_up, on_state, on_status, not_versioned, on_pull_all, on_pull_one, on_pull, on_operation};
ghost use Rattle.platform.specs.Reaction.{reaction_to};

use crate::reactions::{Heard, Owed, Reaction, Reply, Standing};
use crate::replies;
use message::{Header, Message, Own, Reading, Status};
use table::Sections;

// The operation that the message asks for, if it asks for one.
pub(crate) fn look_up(
    table: &[u8],
    s: Sections,
    index: &[u64],
    reading: Reading,
) -> Option<(u16, usize)>
    ensures { result ≡ operation_in table.now s index.now reading }
{
    match reading {
        Reading::Refused(_) => None,
        Reading::Read {
            header,
            message,
            ..
        } => looked_for(table, s, index, header, message),
    }
}

// Without what answers a request of ours, which is `answering`'s.
pub(crate) fn reaction_to(
    own: Own,
    table: &[u8],
    s: Sections,
    found: Option<(u16, usize)>,
    standing: Standing,
    header: Header,
    message: Message,
    start: usize,
    length: usize,
) -> Reaction
    ensures { result ≡ reaction_to own.platform table.now s found standing header message start length }
{
    match message {
        Message::PlatformStatus(status) => on_status(own, standing, header.platform, status),
        Message::PlatformStatusRequest => replied(
            standing,
            Heard::Request,
            Reply::StatusUp(header.sequence),
        ),
        Message::UnknownOperation(id) => silent(standing, Heard::UnknownOperation(id)),
        Message::VersionedDataPull(id) => {
            on_pull(table, s, found, standing, header.sequence, id)
        }
        Message::Operation => on_operation(found, standing, header, start, length),
    }
}

fn looked_for(
    table: &[u8],
    s: Sections,
    index: &[u64],
    header: Header,
    message: Message,
) -> Option<(u16, usize)>
    ensures { result ≡ operation_for table.now s index.now header message }
{
    match message {
        Message::VersionedDataPull(id) => operations::find(table, index, s.operations.count, id),
        Message::Operation => operations::find(table, index, s.operations.count, header.id),
        _ => None,
    }
}

// A platform above 255 has no state that could change.
fn on_status(own: Own, standing: Standing, sender: u32, status: Status) -> Reaction
    ensures { result ≡ on_status own.platform standing sender status }
{
    if sender < Own::PLATFORMS {
        on_state(own, standing, sender, status)
    } else {
        silent(standing, Heard::Status(status))
    }
}

// DOWN to UP is answered, UP to UP never is: two platforms would answer each other for ever.
fn on_state(own: Own, standing: Standing, sender: u32, status: Status) -> Reaction
    ensures { result ≡ on_state own.platform standing sender status }
{
    let states = standing.states;
    let up = states::is_up(own, states, sender);
    match status {
        Status::Up => {
            if up {
                silent(standing, Heard::Status(Status::Up))
            } else {
                came_up(standing, sender)
            }
        }
        Status::Down => {
            if up {
                silent(
                    noted(standing, sender, standing.next),
                    Heard::Status(Status::Down),
                )
            } else {
                silent(standing, Heard::Status(Status::Down))
            }
        }
    }
}

fn came_up(standing: Standing, sender: u32) -> Reaction
    ensures { result ≡ coming_up standing sender }
{
    let first = standing.next;
    let second = pending::drawn(first);
    Reaction {
        standing: noted(standing, sender, pending::drawn(second)),
        heard: Heard::Status(Status::Up),
        owed: Owed::Two(Reply::StatusUp(first), Reply::PullAll(second)),
    }
}

pub fn noted(standing: Standing, sender: u32, next: u32) -> Standing
    ensures { result ≡ noted standing sender next }
{
    let states = standing.states;
    Standing {
        states: states::turned(states, sender),
        next,
    }
}

fn on_pull(
    table: &[u8],
    s: Sections,
    found: Option<(u16, usize)>,
    standing: Standing,
    number: u32,
    id: u32,
) -> Reaction
    ensures { result ≡ on_pull table.now s found standing number id }
{
    if id == replies::ALL_DATA {
        on_pull_all(table, s, standing, number)
    } else {
        on_pull_one(table, found, standing, number, id)
    }
}

fn on_pull_all(table: &[u8], s: Sections, standing: Standing, number: u32) -> Reaction
    ensures { result ≡ on_pull_all table.now s standing number }
{
    let operations = s.operations;
    if operations::has_data(table, operations.at, operations.count) {
        silent(standing, Heard::PullOfAll)
    } else {
        not_versioned(standing, number, replies::ALL_DATA)
    }
}

fn on_pull_one(
    table: &[u8],
    found: Option<(u16, usize)>,
    standing: Standing,
    number: u32,
    id: u32,
) -> Reaction
    ensures { result ≡ on_pull_one table.now found standing number id }
{
    match found {
        Some((entry, place)) => {
            if is_data(table, place) {
                silent(standing, Heard::PullOfOne(id, entry))
            } else {
                not_versioned(standing, number, id)
            }
        }
        None => not_versioned(standing, number, id),
    }
}

fn on_operation(
    found: Option<(u16, usize)>,
    standing: Standing,
    header: Header,
    start: usize,
    length: usize,
) -> Reaction
    ensures { result ≡ on_operation found standing header start length }
{
    match found {
        Some((entry, _)) => silent(
            standing,
            Heard::Operation {
                entry,
                start,
                length,
            },
        ),
        None => replied(
            standing,
            Heard::NotInTable(header.id),
            Reply::Unknown(header.sequence, header.id),
        ),
    }
}

fn not_versioned(standing: Standing, number: u32, id: u32) -> Reaction
    ensures { result ≡ not_versioned standing number id }
{
    replied(
        standing,
        Heard::NotVersionedData(id),
        Reply::Unknown(number, id),
    )
}

fn is_data(table: &[u8], place: usize) -> bool
    ensures { result ≡ is_data table.now place }
{
    operations::kind_at(table, place) == operations::VERSIONED_DATA
}

fn silent(standing: Standing, heard: Heard) -> Reaction
    ensures { result ≡ silent standing heard }
{
    Reaction {
        standing,
        heard,
        owed: Owed::Nothing,
    }
}

fn replied(standing: Standing, heard: Heard, reply: Reply) -> Reaction
    ensures { result ≡ replied standing heard reply }
{
    Reaction {
        standing,
        heard,
        owed: Owed::One(reply),
    }
}
