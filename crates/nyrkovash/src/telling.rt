// What a message of either issue is told as, in words (02, request 8).
ghost use Rattle.std.specs.Prelude.{◌≡◌};
ghost use Rattle.message.specs.Header.{domain_in, id_in, payload_in};
ghost use Rattle.message.specs.Platform.{status_value};
ghost use Rattle.message.specs.Refusal.{contents_refusal};
ghost use Rattle.message.specs.Reading.{reading_out};
ghost use Rattle.message3.specs.Platform.{agreement_value, kind_in3, value_in3, composite_in};
ghost use Rattle.mixed.specs.declared.AnyReading.TheVariants.{Three};
ghost use Rattle.mixed.specs.Reading.{from_six};
ghost use Rattle.nyrkovash.specs.IssueCalls.{any_left};

use crate::issues::ANY_READING_WORDS;
use crate::reading;
use crate::reading::OPERATION;
use message::{Header, Message, Status};
use message3::{Agreement, Header3, Message3};

// Message kinds that Issue 6 has not, behind its own.
const SERVICES: u64 = 6;

const SERVICES_REQUEST: u64 = 7;

const NOT_AVAILABLE: u64 = 8;

const COMPOSITE_CHANGE: u64 = 9;

const COMPOSITE_ACK: u64 = 10;

const ISSUE_3: u64 = 3;

const ISSUE_6: u64 = 6;

// A message of Issue 6 that nothing refuses, straight from its bytes, as `nyr_read` tells it. It has no timestamp and no composite ID.
pub(crate) fn put_six(message: &[u8], answer: &mut [u64; ANY_READING_WORDS])
    requires { contents_refusal (domain_in message.now) (id_in message.now) (payload_in message.now) ≡ 0 }
    ensures { answer.new ≡ any_left answer.old (from_six (reading_out message.now)) }
{
    let domain = wire::number_at::<u8>(message, Header::DOMAIN_AT);
    let id = wire::number_at::<u32>(message, Header::ID_AT);
    *answer = [
        reading::kind_of(domain, id),
        reading::value_of(domain, id, wire::number_at::<u32>(message, Header::LENGTH)),
        wire::number_at::<u32>(message, Header::PLATFORM_AT) as u64,
        wire::number_at::<u32>(message, Header::SEQUENCE_AT) as u64,
        Header::LENGTH as u64,
        wire::number_at::<u32>(message, Header::PAYLOAD_SIZE_AT) as u64,
        ISSUE_6,
        0,
        0,
        0,
    ];
}

pub(crate) fn put_three(
    header: Header3,
    what: Message3,
    start: usize,
    length: usize,
    answer: &mut [u64; ANY_READING_WORDS],
)
    ensures { answer.new ≡ any_left answer.old (Three header what start length) }
{
    *answer = [
        kind_three(what),
        value_three(header.id, what),
        header.platform as u64,
        header.sequence as u64,
        start as u64,
        length as u64,
        ISSUE_3,
        header.seconds as u64,
        header.nanoseconds as u64,
        composite_three(what),
    ];
}

fn kind_three(what: Message3) -> u64
    ensures { result ≡ kind_in3 what }
{
    match what {
        Message3::PlatformStatus(_, _) => Message::PLATFORM_STATUS as u64,
        Message3::PlatformStatusRequest => Message::PLATFORM_STATUS_REQUEST as u64,
        Message3::AvailabilityStatus(_) => SERVICES,
        Message3::AvailabilityStatusRequest(_) => SERVICES_REQUEST,
        Message3::UnknownOperation(_) => Message::UNKNOWN_OPERATION as u64,
        Message3::ServiceNotAvailable(_) => NOT_AVAILABLE,
        Message3::VersionedDataPull(_) => Message::VERSIONED_DATA_PULL as u64,
        Message3::CompositeChangeRequest(_) => COMPOSITE_CHANGE,
        Message3::CompositeChangeRequestAck(_) => COMPOSITE_ACK,
        Message3::Operation => OPERATION,
    }
}

fn value_three(id: u32, what: Message3) -> u64
    ensures { result ≡ value_in3 id what }
{
    match what {
        Message3::PlatformStatus(status, _) => status_value(status),
        Message3::PlatformStatusRequest => 0,
        Message3::AvailabilityStatus(count) => count as u64,
        Message3::AvailabilityStatusRequest(service) => service as u64,
        Message3::UnknownOperation(unknown) => unknown as u64,
        Message3::ServiceNotAvailable(operation) => operation as u64,
        Message3::VersionedDataPull(pulled) => pulled as u64,
        Message3::CompositeChangeRequest(composite) => composite as u64,
        Message3::CompositeChangeRequestAck(agreement) => agreement_value(agreement),
        Message3::Operation => id as u64,
    }
}

// A status tells the composite's ID too.
fn composite_three(what: Message3) -> u64
    ensures { result ≡ composite_in what }
{
    match what {
        Message3::PlatformStatus(_, composite) => composite as u64,
        _ => 0,
    }
}

fn status_value(status: Status) -> u64
    ensures { result ≡ status_value status }
{
    match status {
        Status::Down => 0,
        Status::Up => 1,
    }
}

fn agreement_value(agreement: Agreement) -> u64
    ensures { result ≡ agreement_value agreement }
{
    match agreement {
        Agreement::Disagree => 0,
        Agreement::Agree => 1,
    }
}
