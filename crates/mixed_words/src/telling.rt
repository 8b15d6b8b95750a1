// What a message was, of Issue 6 or of Issue 3, number by number.
ghost use Rattle.std.specs.Prelude.{◌≡◌};
ghost use Rattle.message.specs.Platform.{status_value};
ghost use Rattle.message3.specs.Platform.{agreement_value};
ghost use Rattle.platform.specs.Heard.{kind_in, value_in, entry_in, start_in, length_in};
ghost use Rattle.mixed_words.specs.HeardWords.{kind_heard3, value_heard3, entry_heard3, start_heard3, length_heard3, composite_heard3};

use message::Status;
use message3::{Agreement, Header3};
use mixed::Heard3;
use platform::Heard;

// What only Issue 3 has, behind the kinds that both issues have.
const SERVICES: u64 = 10;

const SERVICES_REQUEST: u64 = 11;

const NOT_AVAILABLE: u64 = 12;

const COMPOSITE_CHANGE: u64 = 13;

const COMPOSITE_ACK: u64 = 14;

pub(crate) fn kind_of(heard: Heard) -> u64
    ensures { result ≡ kind_in heard }
{
    match heard {
        Heard::Status(_) => platform_words::STATUS,
        Heard::Request => platform_words::REQUEST,
        Heard::UnknownOperation(_) => platform_words::UNKNOWN_OPERATION,
        Heard::PullOfAll => platform_words::PULL_OF_ALL,
        Heard::PullOfOne(_, _) => platform_words::PULL_OF_ONE,
        Heard::NotVersionedData(_) => platform_words::NOT_VERSIONED_DATA,
        Heard::Operation { .. } => platform_words::OPERATION,
        Heard::NotInTable(_) => platform_words::NOT_IN_TABLE,
    }
}

pub(crate) fn value_of(id: u32, heard: Heard) -> u64
    ensures { result ≡ value_in id heard }
{
    match heard {
        Heard::Status(status) => status_value(status),
        Heard::Request => 0,
        Heard::UnknownOperation(unknown) => unknown as u64,
        Heard::PullOfAll => 0,
        Heard::PullOfOne(pulled, _) => pulled as u64,
        Heard::NotVersionedData(pulled) => pulled as u64,
        Heard::Operation { .. } => id as u64,
        Heard::NotInTable(unknown) => unknown as u64,
    }
}

pub(crate) fn entry_of(heard: Heard) -> u64
    ensures { result ≡ entry_in heard }
{
    match heard {
        Heard::PullOfOne(_, entry) => entry as u64,
        Heard::Operation { entry, .. } => entry as u64,
        _ => 0,
    }
}

pub(crate) fn start_of(heard: Heard) -> u64
    ensures { result ≡ start_in heard }
{
    match heard {
        Heard::Operation { start, .. } => start as u64,
        _ => 0,
    }
}

pub(crate) fn length_of(heard: Heard) -> u64
    ensures { result ≡ length_in heard }
{
    match heard {
        Heard::Operation { length, .. } => length as u64,
        _ => 0,
    }
}

pub(crate) fn kind_three(heard: Heard3) -> u64
    ensures { result ≡ kind_heard3 heard }
{
    match heard {
        Heard3::Common(common) => kind_of(common),
        Heard3::Status(_, _) => platform_words::STATUS,
        Heard3::Services(_) => SERVICES,
        Heard3::ServicesRequest(_) => SERVICES_REQUEST,
        Heard3::ServiceNotAvailable(_) => NOT_AVAILABLE,
        Heard3::CompositeChange(_) => COMPOSITE_CHANGE,
        Heard3::CompositeAnswer(_) => COMPOSITE_ACK,
    }
}

pub(crate) fn value_three(id: u32, heard: Heard3) -> u64
    ensures { result ≡ value_heard3 id heard }
{
    match heard {
        Heard3::Common(common) => value_of(id, common),
        Heard3::Status(status, _) => status_value(status),
        Heard3::Services(count) => count as u64,
        Heard3::ServicesRequest(service) => service as u64,
        Heard3::ServiceNotAvailable(operation) => operation as u64,
        Heard3::CompositeChange(composite) => composite as u64,
        Heard3::CompositeAnswer(agreement) => agreement_value(agreement),
    }
}

pub(crate) fn entry_three(heard: Heard3) -> u64
    ensures { result ≡ entry_heard3 heard }
{
    match heard {
        Heard3::Common(common) => entry_of(common),
        _ => 0,
    }
}

pub(crate) fn start_three(heard: Heard3) -> u64
    ensures { result ≡ start_heard3 heard }
{
    match heard {
        Heard3::Common(common) => start_of(common),
        Heard3::Services(_) => Header3::LENGTH as u64,
        _ => 0,
    }
}

pub(crate) fn length_three(size: u32, heard: Heard3) -> u64
    ensures { result ≡ length_heard3 size heard }
{
    match heard {
        Heard3::Common(common) => length_of(common),
        Heard3::Services(_) => size as u64,
        _ => 0,
    }
}

// A status tells the composite's ID too.
pub(crate) fn composite_three(heard: Heard3) -> u64
    ensures { result ≡ composite_heard3 heard }
{
    match heard {
        Heard3::Status(_, composite) => composite as u64,
        _ => 0,
    }
}

fn status_value(status: Status) -> u64
    ensures { result ≡ status_value status }
{
    match status {
        Status::Down => 0,
        Status::Up => 1,
    }
}

fn agreement_value(agreement: Agreement) -> u64
    ensures { result ≡ agreement_value agreement }
{
    match agreement {
        Agreement::Disagree => 0,
        Agreement::Agree => 1,
    }
}
