// Partners of both issues (02, request 8): who speaks Issue 3, messages read by their sender's issue, and messages written for a
// partner that speaks Issue 3. What `nyr_read` and `nyr_write` do is Issue 6 alone.
ghost use Rattle.std.specs.Prelude.{◌≡◌};
ghost use Rattle.message.specs.Reading.{read_of};
ghost use Rattle.message3.specs.Reading.{read_of3};
ghost use Rattle.mixed.specs.Reading.{from_six, from_three, number_given};
ghost use Rattle.nyrkovash.specs.IssueCalls.{partners_left, any_number, any_left, any_answer, write_number3, write_output3, write_given3};

use crate::telling;
use message::{Own, Writing};
use message3::{Reading3, Stamp};
use mixed::Form;
use mixed_words::PARTNERS_WORDS;

// How many words a message of either issue is that was read.
pub const ANY_READING_WORDS: usize = 10;

const ISSUE_3: u32 = 3;

// Sets one platform up: 3 is Issue 3, any other number Issue 6. A platform above 255 changes nothing.
#[unsafe(no_mangle)]
pub extern "C" fn nyr_partners_set(
    partners: &mut [u64; PARTNERS_WORDS],
    platform: u32,
    issue: u32,
) -> u32
    ensures value { result ≡ 0 }
    ensures partners_after { partners.new ≡ partners_left partners.old platform issue }
{
    partners::set(partners, platform, issue == ISSUE_3);
    0
}

// Reads a message at this platform by its sender's issue: 1 to 9, or 0 and the message.
#[unsafe(no_mangle)]
pub extern "C" fn nyr_read_mixed(
    own: u8,
    partners: &[u64; PARTNERS_WORDS],
    message: &[u8],
    answer: &mut [u64; ANY_READING_WORDS],
) -> u32
    ensures value { result ≡ any_number partners.now own message.now }
    ensures answer_after { answer.new ≡ any_answer partners.now own message.now answer.old }
{
    match mixed::form_of(partners, message) {
        Form::Six => read_six(Own { platform: own }, message, answer),
        Form::Three => read_three(Own { platform: own }, message, answer),
        Form::Other(number) => number,
    }
}

// A message in Issue 6's form, straight from its bytes.
fn read_six(own: Own, message: &[u8], answer: &mut [u64; ANY_READING_WORDS]) -> u32
    ensures value { result ≡ number_given (from_six (read_of own.platform message.now)) }
    ensures answer_after { answer.new ≡ any_left answer.old (from_six (read_of own.platform message.now)) }
{
    let number = message::read_refusal(own, message);
    if number == 0 {
        telling::put_six(message, answer);
        0
    } else {
        number
    }
}

fn read_three(own: Own, message: &[u8], answer: &mut [u64; ANY_READING_WORDS]) -> u32
    ensures value { result ≡ number_given (from_three (read_of3 own.platform message.now)) }
    ensures answer_after { answer.new ≡ any_left answer.old (from_three (read_of3 own.platform message.now)) }
{
    match message3::read(own, message) {
        Reading3::Refused(number) => number,
        Reading3::Read {
            header,
            message: what,
            start,
            length,
        } => {
            telling::put_three(header, what, start, length, answer);
            0
        }
    }
}

// Writes a message of this platform for a partner that speaks Issue 3, sent at this time, at the start of `out`: 4, 5, 7 to 9, 10
// for too short an output, or 0 and how many bytes were written.
#[unsafe(no_mangle)]
pub extern "C" fn nyr_write_3(
    own: u8,
    seconds: u32,
    nanoseconds: u32,
    domain: u8,
    id: u32,
    sequence: u32,
    payload: &[u8],
    out: &mut [u8],
    written: &mut usize,
) -> u32
    ensures value { result ≡ write_number3 domain id payload.now out.old }
    ensures out_after { out.new ≡ write_output3 own seconds nanoseconds domain id sequence payload.now out.old }
    ensures written_after { written.new ≡ write_given3 domain id payload.now out.old written.old }
{
    let stamp = Stamp {
        seconds,
        nanoseconds,
    };
    match message3::write(
        Own { platform: own },
        stamp,
        domain,
        id,
        sequence,
        payload,
        out,
    ) {
        Writing::Refused(number) => number,
        Writing::Written(length) => {
            *written = length;
            0
        }
    }
}
