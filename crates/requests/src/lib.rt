// Requests: a message that asks another platform's operation is written in that platform's issue and entered among those that are
// pending, or 62, 60, 5 or 10 is answered, the first that applies, and nothing changes.
#![tactic(auto)]

ghost use Rattle.std.specs.Prelude.{◌≡◌, length};
ghost use Rattle.requests.specs.Sending.{sent_for, list_sent_for, output_sent_for, refused_with};
ghost use Rattle.requests.specs.Sending.{written_of, list_written, output_written, write_for, output_for};

use message::{Header, Own, Writing};
use message3::Stamp;
use operations::REQUEST_SENT;

// The issue that a target speaks: what is written for Issue 3 bears a timestamp.
#[derive(Clone, Copy)]
pub enum Issue {
    Six,
    Three(Stamp),
}

// What became of a request: the number that refuses it, or its own number and how many bytes were written.
#[derive(Clone, Copy)]
pub enum Sent {
    Refused(u32),
    Under { number: u32, written: usize },
}

// The next own number afterwards beside it.
#[derive(Clone, Copy)]
pub struct Sending {
    pub next: u32,
    pub answer: Sent,
}

// 02, request 1.
pub const LIST_FULL: u32 = 60;

pub const NO_REQUEST: u32 = 62;

// Sends a request under an operation of this kind and ID to platform `target`, which speaks this issue.
pub fn send(
    own: Own,
    issue: Issue,
    next: u32,
    list: &mut [u64],
    kind: u16,
    id: u32,
    target: u32,
    payload: &[u8],
    out: &mut [u8],
) -> Sending
    ensures answer { result ≡ sent_for issue next list.old kind id payload.now (length out.old) }
    ensures list { list.new ≡ list_sent_for issue next list.old kind id target payload.now (length out.old) }
    ensures output { out.new ≡ output_sent_for issue own.platform next list.old kind id payload.now out.old }
{
    if kind == REQUEST_SENT {
        match pending::free_place(list) {
            Some(place) => send_at(own, issue, next, list, place, id, target, payload, out),
            None => refused(next, LIST_FULL),
        }
    } else {
        refused(next, NO_REQUEST)
    }
}

// The message is written first: where there is no room for it nothing is entered.
fn send_at(
    own: Own,
    issue: Issue,
    next: u32,
    list: &mut [u64],
    place: usize,
    id: u32,
    target: u32,
    payload: &[u8],
    out: &mut [u8],
) -> Sending
    ensures answer { result ≡ written_of issue next list.old id payload.now (length out.old) }
    ensures list { list.new ≡ list_written issue next list.old place id target payload.now (length out.old) }
    ensures output { out.new ≡ output_written issue own.platform next list.old id payload.now out.old }
{
    let number = pending::next_free(list, next);
    match write_for(own, issue, id, number, payload, out) {
        Writing::Written(written) => {
            pending::enter(list, place, number, id, target);
            Sending {
                next: pending::drawn(number),
                answer: Sent::Under { number, written },
            }
        }
        Writing::Refused(with) => refused(next, with),
    }
}

fn write_for(
    own: Own,
    issue: Issue,
    id: u32,
    number: u32,
    payload: &[u8],
    out: &mut [u8],
) -> Writing
    ensures answer { result ≡ write_for issue id payload.now (length out.old) }
    ensures output { out.new ≡ output_for issue own.platform id number payload.now out.old }
{
    match issue {
        Issue::Six => message::write(own, Header::OPERATION_DOMAIN, id, number, payload, out),
        Issue::Three(stamp) => message3::write(
            own,
            stamp,
            Header::OPERATION_DOMAIN,
            id,
            number,
            payload,
            out,
        ),
    }
}

fn refused(next: u32, with: u32) -> Sending
    ensures { result ≡ refused_with next with }
{
    Sending {
        next,
        answer: Sent::Refused(with),
    }
}
