// What a message of Issue 3 is: 001, Tables 3 and 4.
ghost use Rattle.std.specs.Prelude.{◌≡◌};
ghost use Rattle.message3.specs.Platform.{message_of3, platform_message3, agreement_of};

use crate::{Agreement, Message3};
use message::Header;

pub(crate) fn message_of(domain: u8, id: u32, field: u32, second: u32) -> Message3
    ensures { result ≡ message_of3 domain id field second }
{
    if domain == Header::PLATFORM_DOMAIN {
        platform_message(id, field, second)
    } else {
        Message3::Operation
    }
}

fn platform_message(id: u32, field: u32, second: u32) -> Message3
    ensures { result ≡ platform_message3 id field second }
{
    match id {
        Message3::PLATFORM_STATUS => Message3::PlatformStatus(message::status_of(field), second),
        Message3::PLATFORM_STATUS_REQUEST => Message3::PlatformStatusRequest,
        Message3::AVAILABILITY_STATUS => Message3::AvailabilityStatus(field),
        Message3::AVAILABILITY_STATUS_REQUEST => Message3::AvailabilityStatusRequest(field),
        Message3::UNKNOWN_OPERATION => Message3::UnknownOperation(field),
        Message3::SERVICE_NOT_AVAILABLE => Message3::ServiceNotAvailable(field),
        Message3::VERSIONED_DATA_PULL => Message3::VersionedDataPull(field),
        Message3::COMPOSITE_CHANGE_REQUEST => Message3::CompositeChangeRequest(field),
        _ => Message3::CompositeChangeRequestAck(agreement_of(field)),
    }
}

fn agreement_of(field: u32) -> Agreement
    ensures { result ≡ agreement_of field }
{
    if field == 0 {
        Agreement::Disagree
    } else {
        Agreement::Agree
    }
}
