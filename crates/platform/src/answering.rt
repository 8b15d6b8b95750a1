// A message with the ID of an operation whose requests we send: the response to one that is pending, or 61 (02, 1).
ghost use Rattle.std.specs.Prelude.{◌≡◌};
ghost use Rattle.platform.specs.Receiving.{is_sent, is_answer, entry_of, delivered, response_to, list_answered};

use crate::reactions::Standing;
use crate::{Noting, Received};
use message::{Header, Message};

// The number of a message that no pending request asked for.
pub const NOT_AWAITED: u32 = 61;

pub(crate) fn is_answer(table: &[u8], found: Option<(u16, usize)>, message: Message) -> bool
    ensures { result ≡ is_answer table.now found message }
{
    match message {
        Message::Operation => is_sent(table, found),
        _ => false,
    }
}

// Its request is pending no more once it is delivered.
pub(crate) fn response_to(
    list: &mut [u64],
    found: Option<(u16, usize)>,
    standing: Standing,
    header: Header,
    start: usize,
    length: usize,
) -> Received
    ensures answer { result ≡ response_to list.old found standing header start length }
    ensures list { list.new ≡ list_answered list.old header }
{
    if pending::take_response(list, header.sequence, header.id, header.platform) {
        delivered(found, standing, header, start, length)
    } else {
        crate::refused(standing, NOT_AWAITED)
    }
}

// Whether what was found is an operation whose requests we send.
pub fn is_sent(table: &[u8], found: Option<(u16, usize)>) -> bool
    ensures { result ≡ is_sent table.now found }
{
    let Some((_, place)) = found else {
        return false;
    };
    operations::kind_at(table, place) == operations::REQUEST_SENT
}

fn delivered(
    found: Option<(u16, usize)>,
    standing: Standing,
    header: Header,
    start: usize,
    length: usize,
) -> Received
    ensures { result ≡ delivered found standing header start length }
{
    let entry = entry_of(found);
    Received {
        standing,
        answer: Noting::Response {
            header,
            entry,
            start,
            length,
        },
    }
}

pub fn entry_of(found: Option<(u16, usize)>) -> u16
    ensures { result ≡ entry_of found }
{
    match found {
        Some((entry, _)) => entry,
        None => 0,
    }
}
