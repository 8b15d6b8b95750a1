// What a message of Issue 3 comes to: what it was, the states and the own number after it, and what is to be written.
ghost use Rattle.std.specs.Prelude.{◌≡◌};
ghost use Rattle.mixed.specs.Reaction.{operation_for3, deed_for, heard_as, one_heard, pull_heard, operation_heard};
ghost use Rattle.mixed.specs.Reaction.{silent3, coming_up3, on_status3, on_services_request, reaction3};

use crate::ours;
use crate::reactions::{Deed, Heard3, Reaction3};
use message::{Own, Status};
use message3::{Header3, Message3};
use platform::{ALL_DATA, Heard, Reply, Standing};
use table::Sections;

// The ID that stands for all services.
pub(crate) const ALL_SERVICES: u32 = 0xFFFF_FFFF;

pub(crate) fn reaction_to(
    own: Own,
    ours: &[u64],
    table: &[u8],
    s: Sections,
    found: Option<(u16, usize)>,
    standing: Standing,
    header: Header3,
    message: Message3,
    start: usize,
    length: usize,
) -> Reaction3
    ensures { result ≡ reaction3 own.platform ours.now table.now s found standing header message start length }
{
    match message {
        Message3::PlatformStatus(status, composite) => {
            on_status(own, standing, header.platform, status, composite)
        }
        Message3::PlatformStatusRequest => commonly(standing, header.sequence, Heard::Request),
        Message3::AvailabilityStatus(count) => Reaction3 {
            standing,
            heard: Heard3::Services(count),
            deed: Deed::Note,
        },
        Message3::AvailabilityStatusRequest(id) => {
            on_services_request(ours, standing, header.sequence, id)
        }
        Message3::UnknownOperation(id) => {
            commonly(standing, header.sequence, Heard::UnknownOperation(id))
        }
        Message3::ServiceNotAvailable(id) => silent(standing, Heard3::ServiceNotAvailable(id)),
        Message3::VersionedDataPull(id) => {
            commonly(standing, header.sequence, pull_heard(table, found, id))
        }
        Message3::CompositeChangeRequest(id) => silent(standing, Heard3::CompositeChange(id)),
        Message3::CompositeChangeRequestAck(answer) => {
            silent(standing, Heard3::CompositeAnswer(answer))
        }
        Message3::Operation => commonly(
            standing,
            header.sequence,
            operation_heard(found, header.id, start, length),
        ),
    }
}

// The operation that the message asks for, if it asks for one.
pub(crate) fn look_up(
    table: &[u8],
    s: Sections,
    index: &[u64],
    header: Header3,
    message: Message3,
) -> Option<(u16, usize)>
    ensures { result ≡ operation_for3 table.now s index.now header message }
{
    match message {
        Message3::VersionedDataPull(id) => operations::find(table, index, s.operations.count, id),
        Message3::Operation => operations::find(table, index, s.operations.count, header.id),
        _ => None,
    }
}

// DOWN to UP is answered, UP to UP never is. UP to DOWN takes the sender's services along.
fn on_status(own: Own, standing: Standing, sender: u8, status: Status, composite: u32) -> Reaction3
    ensures { result ≡ on_status3 own.platform standing sender status composite }
{
    let states = standing.states;
    let up = states::is_up(own, states, sender as u32);
    match status {
        Status::Up => {
            if up {
                silent(standing, Heard3::Status(Status::Up, composite))
            } else {
                came_up(standing, sender, composite)
            }
        }
        Status::Down => {
            if up {
                Reaction3 {
                    standing: platform::noted(standing, sender as u32, standing.next),
                    heard: Heard3::Status(Status::Down, composite),
                    deed: Deed::MarkAll,
                }
            } else {
                silent(standing, Heard3::Status(Status::Down, composite))
            }
        }
    }
}

// Three own numbers are taken.
fn came_up(standing: Standing, sender: u8, composite: u32) -> Reaction3
    ensures { result ≡ coming_up3 standing sender composite }
{
    let first = standing.next;
    let next = pending::drawn(pending::drawn(pending::drawn(first)));
    Reaction3 {
        standing: platform::noted(standing, sender as u32, next),
        heard: Heard3::Status(Status::Up, composite),
        deed: Deed::StartUp(first),
    }
}

// 001 has no answer to a pull of all where there is no versioned data.
fn pull_heard(table: &[u8], found: Option<(u16, usize)>, id: u32) -> Heard
    ensures { result ≡ pull_heard table.now found id }
{
    if id == ALL_DATA {
        Heard::PullOfAll
    } else {
        one_heard(table, found, id)
    }
}

fn one_heard(table: &[u8], found: Option<(u16, usize)>, id: u32) -> Heard
    ensures { result ≡ one_heard table.now found id }
{
    match found {
        Some((entry, place)) => {
            if operations::kind_at(table, place) == operations::VERSIONED_DATA {
                Heard::PullOfOne(id, entry)
            } else {
                Heard::NotVersionedData(id)
            }
        }
        None => Heard::NotVersionedData(id),
    }
}

fn operation_heard(found: Option<(u16, usize)>, id: u32, start: usize, length: usize) -> Heard
    ensures { result ≡ operation_heard found id start length }
{
    match found {
        Some((entry, _)) => Heard::Operation {
            entry,
            start,
            length,
        },
        None => Heard::NotInTable(id),
    }
}

fn on_services_request(ours: &[u64], standing: Standing, number: u32, id: u32) -> Reaction3
    ensures { result ≡ on_services_request ours.now standing number id }
{
    if id == ALL_SERVICES {
        return Reaction3 {
            standing,
            heard: Heard3::ServicesRequest(id),
            deed: Deed::TellAll(number),
        };
    }
    let available = ours::is_available(ours, id);
    Reaction3 {
        standing,
        heard: Heard3::ServicesRequest(id),
        deed: Deed::TellOne {
            number,
            id,
            available,
        },
    }
}

// What both issues have: what is owed is told by what was heard. It is not asked of `platform`, whose own call would then be compiled
// as two.
fn commonly(standing: Standing, number: u32, heard: Heard) -> Reaction3
    ensures { result ≡ heard_as standing number heard }
{
    Reaction3 {
        standing,
        heard: Heard3::Common(heard),
        deed: deed_for(number, heard),
    }
}

// Replies repeat the number of what they answer.
fn deed_for(number: u32, heard: Heard) -> Deed
    ensures { result ≡ deed_for number heard }
{
    match heard {
        Heard::Request => Deed::One(Reply::StatusUp(number)),
        Heard::NotVersionedData(id) => Deed::One(Reply::Unknown(number, id)),
        Heard::NotInTable(id) => Deed::One(Reply::Unknown(number, id)),
        _ => Deed::Nothing,
    }
}

fn silent(standing: Standing, heard: Heard3) -> Reaction3
    ensures { result ≡ silent3 standing heard }
{
    Reaction3 {
        standing,
        heard,
        deed: Deed::Nothing,
    }
}
