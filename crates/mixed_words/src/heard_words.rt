// What was heard among partners of both issues, in lent words: the eight of Issue 6's calls, and behind these the sender's issue, the
// timestamp and a status's composite ID.
ghost use Rattle.std.specs.Prelude.{◌≡◌, ◌≤◌, ◌++◌, length};
ghost use Rattle.platform_words.specs.Words.{standing_length, pending_in};
ghost use Rattle.platform_words.specs.HeardWords.{heard_words, response_words};
ghost use Rattle.mixed.specs.Receiving.{number_given};
ghost use Rattle.mixed_words.specs.HeardWords.{behind_six, heard_words3, response_words3, any_answer_words, any_platform_after, any_heard_after};

use crate::telling;
use message::Header;
use message3::Header3;
use mixed::{AnyAnswer, AnyReceived, Heard3};
use platform::Heard;

// How many words an answer is.
pub const ANY_HEARD_WORDS: usize = 12;

pub(crate) const ISSUE_6: u64 = 6;

const ISSUE_3: u64 = 3;

// The platform's first words and the answer are written only where nothing was refused; its list is as it should be.
pub(crate) fn tell(
    outcome: AnyReceived,
    words: &mut [u64],
    heard: &mut [u64; ANY_HEARD_WORDS],
) -> u32
    requires { standing_length ≤ length words.old }
    ensures value { result ≡ number_given outcome.answer }
    ensures words_after { words.new ≡ any_platform_after outcome words.old (pending_in words.old) }
    ensures heard_after { heard.new ≡ any_heard_after outcome heard.old }
{
    let given = outcome.answer;
    let standing = outcome.standing;
    match given {
        AnyAnswer::Refused(number) => number,
        _ => {
            platform_words::keep_standing(words, standing);
            put_answer(heard, given);
            0
        }
    }
}

fn put_answer(words: &mut [u64; ANY_HEARD_WORDS], answer: AnyAnswer)
    ensures { words.new ≡ any_answer_words answer words.old }
{
    match answer {
        AnyAnswer::Refused(_) => {}
        AnyAnswer::Six {
            header,
            heard,
            written,
        } => put_six(words, header, heard, written),
        AnyAnswer::SixResponse {
            header,
            entry,
            start,
            length,
        } => put_six_response(words, header, entry, start, length),
        AnyAnswer::Three {
            header,
            heard,
            written,
        } => put_three(words, header, heard, written),
        AnyAnswer::ThreeResponse {
            header,
            entry,
            start,
            length,
        } => put_three_response(words, header, entry, start, length),
    }
}

fn put_six(words: &mut [u64; ANY_HEARD_WORDS], header: Header, heard: Heard, written: usize)
    ensures { words.new ≡ heard_words header written heard ++ behind_six }
{
    *words = [
        telling::kind_of(heard),
        telling::value_of(header.id, heard),
        header.platform as u64,
        header.sequence as u64,
        telling::entry_of(heard),
        telling::start_of(heard),
        telling::length_of(heard),
        written as u64,
        ISSUE_6,
        0,
        0,
        0,
    ];
}

// Nothing is owed for a response.
fn put_six_response(
    words: &mut [u64; ANY_HEARD_WORDS],
    header: Header,
    entry: u16,
    start: usize,
    length: usize,
)
    ensures { words.new ≡ response_words header entry start length ++ behind_six }
{
    *words = [
        platform_words::RESPONSE,
        header.id as u64,
        header.platform as u64,
        header.sequence as u64,
        entry as u64,
        start as u64,
        length as u64,
        0,
        ISSUE_6,
        0,
        0,
        0,
    ];
}

fn put_three(words: &mut [u64; ANY_HEARD_WORDS], header: Header3, heard: Heard3, written: usize)
    ensures { words.new ≡ heard_words3 header written heard }
{
    *words = [
        telling::kind_three(heard),
        telling::value_three(header.id, heard),
        header.platform as u64,
        header.sequence as u64,
        telling::entry_three(heard),
        telling::start_three(heard),
        telling::length_three(header.payload_size, heard),
        written as u64,
        ISSUE_3,
        header.seconds as u64,
        header.nanoseconds as u64,
        telling::composite_three(heard),
    ];
}

fn put_three_response(
    words: &mut [u64; ANY_HEARD_WORDS],
    header: Header3,
    entry: u16,
    start: usize,
    length: usize,
)
    ensures { words.new ≡ response_words3 header entry start length }
{
    *words = [
        platform_words::RESPONSE,
        header.id as u64,
        header.platform as u64,
        header.sequence as u64,
        entry as u64,
        start as u64,
        length as u64,
        0,
        ISSUE_3,
        header.seconds as u64,
        header.nanoseconds as u64,
        0,
    ];
}
