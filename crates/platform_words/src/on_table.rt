// The call for one message, with the platform and the answer in lent words: as the C interface has it.
ghost use Rattle.std.specs.Prelude.{◌≡◌, ◌++◌, ◌≤◌, length, take};
ghost use Rattle.platform.specs.Receiving.{list_after};
ghost use Rattle.platform_words.specs.Words.{standing_length, pending_in};
ghost use Rattle.platform_words.specs.TableCalls.{outcome_with, receive_number, receive_words, receive_output, receive_heard};

use crate::heard_words::HEARD_WORDS;
use crate::standing_words::{PENDING_AT, PLATFORM_WORDS};
use crate::{heard_words, standing_words};
use message::Own;
use platform::Received;

// Reads a message, notes the state that it tells, and writes the owed replies at the output's start, or delivers the response to
// a request that is pending: 30 to 33, 1 to 9, 61, 10, or 0 and what was heard.
pub fn receive(
    own: u8,
    platform: &mut [u64; PLATFORM_WORDS],
    table: &[u8],
    message: &[u8],
    out: &mut [u8],
    heard: &mut [u64; HEARD_WORDS],
) -> u32
    ensures value { result ≡ receive_number own platform.old table.now message.now out.old }
    ensures platform_after { platform.new ≡ receive_words own platform.old table.now message.now out.old }
    ensures out_after { out.new ≡ receive_output own platform.old table.now message.now out.old }
    ensures heard_after { heard.new
        ≡ receive_heard own platform.old table.now message.now out.old heard.old }
{
    let words: &mut [u64] = platform;
    let outcome = taken(Own { platform: own }, words, table, message, out);
    heard_words::tell(outcome, words, heard)
}

// The platform's first words are still as they were.
fn taken(own: Own, words: &mut [u64], table: &[u8], message: &[u8], out: &mut [u8]) -> Received
    requires { standing_length ≤ length words.old }
    ensures value { result ≡ outcome_with own.platform words.old table.now message.now out.old }
    ensures words_after { words.new
        ≡ take standing_length words.old
        ++ list_after own.platform table.now (pending_in words.old) message.now }
    ensures out_after { out.new
        ≡ receive_output own.platform words.old table.now message.now out.old }
{
    let standing = standing_words::standing_in(words);
    platform::receive(own, table, standing, &mut words[PENDING_AT..], message, out)
}
