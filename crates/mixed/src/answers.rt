// What is answered, put together: what Issue 6 answers, a refusal, and of Issue 3 the response to a request of ours or any other message.
ghost use Rattle.std.specs.Prelude.{◌≡◌};
ghost use Rattle.mixed.specs.Receiving.{from_received, refused_any, delivered3, taken3};

use crate::reactions::Reaction3;
use crate::{AnyAnswer, AnyReceived};
use message3::Header3;
use platform::{Noting, Received, Standing};

pub(crate) fn from_received(received: Received) -> AnyReceived
    ensures { result ≡ from_received received }
{
    let standing = received.standing;
    let answer = received.answer;
    match answer {
        Noting::Refused(number) => refused(standing, number),
        Noting::Noted {
            header,
            heard,
            written,
        } => AnyReceived {
            standing,
            answer: AnyAnswer::Six {
                header,
                heard,
                written,
            },
        },
        Noting::Response {
            header,
            entry,
            start,
            length,
        } => AnyReceived {
            standing,
            answer: AnyAnswer::SixResponse {
                header,
                entry,
                start,
                length,
            },
        },
    }
}

pub(crate) fn refused(standing: Standing, number: u32) -> AnyReceived
    ensures { result ≡ refused_any standing number }
{
    AnyReceived {
        standing,
        answer: AnyAnswer::Refused(number),
    }
}

pub(crate) fn delivered(
    found: Option<(u16, usize)>,
    standing: Standing,
    header: Header3,
    start: usize,
    length: usize,
) -> AnyReceived
    ensures { result ≡ delivered3 found standing header start length }
{
    let entry = platform::entry_of(found);
    AnyReceived {
        standing,
        answer: AnyAnswer::ThreeResponse {
            header,
            entry,
            start,
            length,
        },
    }
}

pub(crate) fn taken(header: Header3, reaction: Reaction3, written: usize) -> AnyReceived
    ensures { result ≡ taken3 header reaction written }
{
    let standing = reaction.standing;
    let heard = reaction.heard;
    AnyReceived {
        standing,
        answer: AnyAnswer::Three {
            header,
            heard,
            written,
        },
    }
}
