// Messages read by their sender's issue: header, kind and where the payload lies, or the number 1 to 9 that refuses the bytes.
ghost use Rattle.std.specs.Prelude.{◌≡◌};
ghost use Rattle.mixed.specs.Form.{three_form};
ghost use Rattle.mixed.specs.Reading.{other_issue, form_of, from_six, from_three, any_of, payload_of};

use crate::{AnyReading, Form};
use message::{Header, Own, Reading};
use message3::{Header3, Reading3};

// Reads a message at this platform: numbers 1 to 9, the lowest that applies.
pub fn read(own: Own, partners: &[u64], message: &[u8]) -> AnyReading
    ensures { result ≡ any_of partners.now own.platform message.now }
{
    match form_of(partners, message) {
        Form::Three => from_three(message3::read(own, message)),
        Form::Six => from_six(message::read(own, message)),
        Form::Other(number) => AnyReading::Refused(number),
    }
}

// By which issue a message is to be read, before it is: so a caller of one issue alone reads it once.
pub fn form_of(partners: &[u64], message: &[u8]) -> Form
    ensures { result ≡ form_of partners.now message.now }
{
    if three_form(partners, message) {
        return Form::Three;
    }
    if partners::is_three(
        partners,
        wire::number_at::<u32>(message, Header::PLATFORM_AT),
    ) {
        return Form::Other(other_issue(message::frame_refusal(message)));
    }
    Form::Six
}

// The payload of a message that was read, as a part of the bytes it was read from; empty for one that was refused.
pub fn payload(message: &[u8], reading: AnyReading) -> &[u8]
    ensures { result.now ≡ payload_of message.now reading }
{
    match reading {
        AnyReading::Six { start, length, .. } => wire::part(message, start, length),
        AnyReading::Three { start, length, .. } => wire::part(message, start, length),
        AnyReading::Refused(_) => &message[..0],
    }
}

// Byte 2 tells where the sender stands, and the set-up which issue it speaks: by the set-up alone it cannot be told, since an
// Issue 6 message has its domain where Issue 3 has the sender.
fn three_form(partners: &[u64], message: &[u8]) -> bool
    ensures { result ≡ three_form partners.now message.now }
{
    let sender = wire::number_at::<u8>(message, Header3::PLATFORM_AT);
    let version = wire::number_at::<u8>(message, Header::VERSION_AT);
    (version != Header::VERSION) & partners::is_three(partners, sender as u32)
}

// What a message in Issue 6's form is refused with, whose sender speaks Issue 3: too short and the wrong mark come first.
fn other_issue(frame: u32) -> u32
    ensures { result ≡ other_issue frame }
{
    match frame {
        message::TOO_SHORT => message::TOO_SHORT,
        message::WRONG_MARK => message::WRONG_MARK,
        _ => message::WRONG_VERSION,
    }
}

fn from_six(reading: Reading) -> AnyReading
    ensures { result ≡ from_six reading }
{
    match reading {
        Reading::Refused(number) => AnyReading::Refused(number),
        Reading::Read {
            header,
            message,
            start,
            length,
        } => AnyReading::Six {
            header,
            message,
            start,
            length,
        },
    }
}

fn from_three(reading: Reading3) -> AnyReading
    ensures { result ≡ from_three reading }
{
    match reading {
        Reading3::Refused(number) => AnyReading::Refused(number),
        Reading3::Read {
            header,
            message,
            start,
            length,
        } => AnyReading::Three {
            header,
            message,
            start,
            length,
        },
    }
}
