// A request sent by the sections that a check gave, with the platform and the answer in lent words: as the C interface has it.
ghost use Rattle.std.specs.Prelude.{◌≡◌, ◌≤◌, length};
ghost use Rattle.requests.specs.Sending.{sent_for, output_sent_for, number_given};
ghost use Rattle.platform_words.specs.Words.{standing_length, next_in, pending_in};
ghost use Rattle.platform_words.specs.SendCalls.{kind_found, send_number_for, send_words_for, send_output_for, send_sent_for, words_sent, sent_words};

use crate::standing_words;
use crate::standing_words::{NEXT_AT, PENDING_AT, PLATFORM_WORDS};
use message::Own;
use requests::{Issue, Sent};
use table::{BOUNDS_WORDS, SECTIONS_WORDS};

// How many words say what was sent.
pub const SENT_WORDS: usize = 2;

// Sends a request of this platform to platform `target`, which speaks this issue: 30 where the sections do not lie in the table, 62,
// 60, 5, 10, or 0 and how many bytes were written at the output's start, and the request's number.
pub fn send(
    own: u8,
    issue: Issue,
    platform: &mut [u64; PLATFORM_WORDS],
    table: &[u8],
    sections: &[u64; SECTIONS_WORDS],
    id: u32,
    target: u32,
    payload: &[u8],
    out: &mut [u8],
    sent: &mut [u64; SENT_WORDS],
) -> u32
    ensures value { result
        ≡ send_number_for issue platform.old table.now sections.now id payload.now out.old }
    ensures platform_after { platform.new
        ≡ send_words_for issue platform.old table.now sections.now id target payload.now out.old }
    ensures out_after { out.new
        ≡ send_output_for issue own platform.old table.now sections.now id payload.now out.old }
    ensures sent_after { sent.new
        ≡ send_sent_for issue platform.old table.now sections.now id payload.now out.old
        sent.old }
{
    let bounds: &[u64] = sections;
    let words: &mut [u64] = platform;
    let s = table::sections_in(bounds);
    if table::within(table, s) {
        let found = operations::find(table, &bounds[BOUNDS_WORDS..], s.operations.count, id);
        let kind = kind_found(table, found);
        send_as(
            Own { platform: own },
            issue,
            words,
            kind,
            id,
            target,
            payload,
            out,
            sent,
        )
    } else {
        table::CUT_SHORT
    }
}

// An ID that is not in the table counts as an event's, which is no request's.
fn kind_found(table: &[u8], found: Option<(u16, usize)>) -> u16
    ensures { result ≡ kind_found table.now found }
{
    match found {
        Some((_, place)) => operations::kind_at(table, place),
        None => operations::EVENT,
    }
}

// The same under an operation of this kind. The words of the states are not touched.
fn send_as(
    own: Own,
    issue: Issue,
    words: &mut [u64],
    kind: u16,
    id: u32,
    target: u32,
    payload: &[u8],
    out: &mut [u8],
    sent: &mut [u64; SENT_WORDS],
) -> u32
    requires { standing_length ≤ length words.old }
    ensures value { result
        ≡ number_given (sent_for issue (next_in words.old) (pending_in words.old) kind id payload.now
        (length out.old)).answer }
    ensures words_after { words.new
        ≡ words_sent (sent_for issue (next_in words.old) (pending_in words.old) kind id payload.now (length out.old))
        words.old id target }
    ensures out_after { out.new
        ≡ output_sent_for issue own.platform (next_in words.old) (pending_in words.old) kind id payload.now
        out.old }
    ensures sent_after { sent.new
        ≡ sent_words (sent_for issue (next_in words.old) (pending_in words.old) kind id payload.now
        (length out.old)).answer sent.old }
{
    let next = standing_words::next_in(words);
    let outcome = requests::send(
        own,
        issue,
        next,
        &mut words[PENDING_AT..],
        kind,
        id,
        target,
        payload,
        out,
    );
    let drawn = outcome.next;
    let answer = outcome.answer;
    match answer {
        Sent::Refused(number) => number,
        Sent::Under { number, written } => {
            words[NEXT_AT] = drawn as u64;
            *sent = [written as u64, number as u64];
            0
        }
    }
}
