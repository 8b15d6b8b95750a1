// What a message is: 000, Tables 3 and 4.
ghost use Rattle.std.specs.Prelude.{◌≡◌};
ghost use Rattle.message.specs.Platform.{message_of, platform_message, status_of};

use crate::{Header, Message, Status};

pub(crate) fn message_of(domain: u8, id: u32, field: u32) -> Message
    ensures { result ≡ message_of domain id field }
{
    if domain == Header::PLATFORM_DOMAIN {
        platform_message(id, field)
    } else {
        Message::Operation
    }
}

fn platform_message(id: u32, field: u32) -> Message
    ensures { result ≡ platform_message id field }
{
    if id == Message::PLATFORM_STATUS {
        return Message::PlatformStatus(status_of(field));
    }
    if id == Message::PLATFORM_STATUS_REQUEST {
        return Message::PlatformStatusRequest;
    }
    if id == Message::UNKNOWN_OPERATION {
        return Message::UnknownOperation(field);
    }
    Message::VersionedDataPull(field)
}

pub fn status_of(field: u32) -> Status
    ensures { result ≡ status_of field }
{
    if field == 0 { Status::Down } else { Status::Up }
}
