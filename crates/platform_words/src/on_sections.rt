// The call for one message by the sections that a check gave, with the platform and the answer in lent words: as the C interface
// has it.
ghost use Rattle.std.specs.Prelude.{◌≡◌, ◌++◌, ◌≤◌, length, take};
ghost use Rattle.message.specs.Header.{header_in};
ghost use Rattle.platform.specs.Receiving.{list_in, list_answered};
ghost use Rattle.platform_words.specs.SectionCalls.{receive_in_number, receive_in_words, receive_in_output, receive_in_heard};
ghost use Rattle.platform_words.specs.Words.{standing_length, standing_in, pending_in, standing_words};
ghost use Rattle.platform_words.specs.Within.{outcome_within, number_within, words_within, output_within, heard_within};
ghost use Rattle.platform_words.specs.Within.{operation_heard, is_awaited, kind_heard, list_heard, straight_words};

use crate::heard_words::HEARD_WORDS;
use crate::standing_words::{PENDING_AT, PLATFORM_WORDS};
use crate::{heard_words, standing_words};
use message::{Header, Own};
use platform::Received;
use table::{BOUNDS_WORDS, SECTIONS_WORDS, Sections};

// What a message is told as that no pending request asked for.
pub const NOTHING: u64 = 0;

// `on_table::receive` by the sections that a check gave: 30 where these do not lie in the table.
pub fn receive_in(
    own: u8,
    platform: &mut [u64; PLATFORM_WORDS],
    table: &[u8],
    sections: &[u64; SECTIONS_WORDS],
    message: &[u8],
    out: &mut [u8],
    heard: &mut [u64; HEARD_WORDS],
) -> u32
    ensures value { result ≡ receive_in_number own platform.old table.now sections.now message.now out.old }
    ensures platform_after { platform.new
        ≡ receive_in_words own platform.old table.now sections.now message.now out.old }
    ensures out_after { out.new
        ≡ receive_in_output own platform.old table.now sections.now message.now out.old }
    ensures heard_after { heard.new
        ≡ receive_in_heard own platform.old table.now sections.now message.now out.old
        heard.old }
{
    let bounds: &[u64] = sections;
    let words: &mut [u64] = platform;
    let s = table::sections_in(bounds);
    if table::within(table, s) {
        received(
            Own { platform: own },
            words,
            table,
            s,
            &bounds[BOUNDS_WORDS..],
            message,
            out,
            heard,
        )
    } else {
        table::CUT_SHORT
    }
}

// A message under the ID of an operation of the table, which comes most often, is told straight from its bytes; all else as
// `platform` answers it.
fn received(
    own: Own,
    words: &mut [u64],
    table: &[u8],
    s: Sections,
    index: &[u64],
    message: &[u8],
    out: &mut [u8],
    heard: &mut [u64; HEARD_WORDS],
) -> u32
    requires { standing_length ≤ length words.old }
    ensures value { result
        ≡ number_within own.platform words.old table.now s index.now message.now out.old }
    ensures words_after { words.new
        ≡ words_within own.platform words.old table.now s index.now message.now out.old }
    ensures out_after { out.new
        ≡ output_within own.platform words.old table.now s index.now message.now out.old }
    ensures heard_after { heard.new
        ≡ heard_within own.platform words.old table.now s index.now message.now out.old
        heard.old }
{
    match operation_heard(own, table, s, index, message) {
        Some((entry, place)) => {
            let kind = kind_in(words, table, place, message);
            if kind == NOTHING {
                platform::NOT_AWAITED
            } else {
                tell_straight(words, message, kind, entry, heard);
                0
            }
        }
        None => {
            let outcome = taken(own, words, table, s, index, message, out);
            heard_words::tell(outcome, words, heard)
        }
    }
}

// The platform's first words are still as they were.
fn taken(
    own: Own,
    words: &mut [u64],
    table: &[u8],
    s: Sections,
    index: &[u64],
    message: &[u8],
    out: &mut [u8],
) -> Received
    requires { standing_length ≤ length words.old }
    ensures value { result
        ≡ outcome_within own.platform words.old table.now s index.now message.now out.old }
    ensures words_after { words.new
        ≡ take standing_length words.old
        ++ list_in own.platform table.now s index.now (pending_in words.old) message.now }
    ensures out_after { out.new
        ≡ output_within own.platform words.old table.now s index.now message.now out.old }
{
    let standing = standing_words::standing_in(words);
    platform::receive_within(
        own,
        table,
        s,
        index,
        standing,
        &mut words[PENDING_AT..],
        message,
        out,
    )
}

// The operation of the table that the message is, where nothing refuses it.
fn operation_heard(
    own: Own,
    table: &[u8],
    s: Sections,
    index: &[u64],
    message: &[u8],
) -> Option<(u16, usize)>
    ensures { result ≡ operation_heard own.platform table.now s index.now message.now }
{
    if wire::number_at::<u8>(message, Header::DOMAIN_AT) == Header::PLATFORM_DOMAIN {
        return None;
    }
    if message::read_refusal(own, message) == 0 {
        let id = wire::number_at::<u32>(message, Header::ID_AT);
        operations::find(table, index, s.operations.count, id)
    } else {
        None
    }
}

// The list is lent by itself, and the platform's first words are still as they were.
fn kind_in(words: &mut [u64], table: &[u8], place: usize, message: &[u8]) -> u64
    requires { standing_length ≤ length words.old }
    ensures value { result ≡ kind_heard (pending_in words.old) table.now place message.now }
    ensures words_after { words.new
        ≡ take standing_length words.old ++ list_heard (pending_in words.old) table.now place message.now }
{
    kind_heard(&mut words[PENDING_AT..], table, place, message)
}

// What a message of domain 1 is told as, by its operation's entry: under the ID of a request that we send it is the response to one
// that is pending in the list, which then is so no more, or nothing (02, 1).
fn kind_heard(list: &mut [u64], table: &[u8], place: usize, message: &[u8]) -> u64
    ensures value { result ≡ kind_heard list.old table.now place message.now }
    ensures list_after { list.new ≡ list_heard list.old table.now place message.now }
{
    if operations::kind_at(table, place) == operations::REQUEST_SENT {
        if take_response(list, message) {
            heard_words::RESPONSE
        } else {
            NOTHING
        }
    } else {
        heard_words::OPERATION
    }
}

fn take_response(list: &mut [u64], message: &[u8]) -> bool
    ensures value { result ≡ is_awaited list.old message.now }
    ensures list_after { list.new ≡ list_answered list.old (header_in message.now) }
{
    let sequence = wire::number_at::<u32>(message, Header::SEQUENCE_AT);
    let id = wire::number_at::<u32>(message, Header::ID_AT);
    let sender = wire::number_at::<u32>(message, Header::PLATFORM_AT);
    pending::take_response(list, sequence, id, sender)
}

// What was heard, and the platform's words with the own number that they mean. Called for both kinds at one place, so that the
// compiler puts it there.
fn tell_straight(
    words: &mut [u64],
    message: &[u8],
    kind: u64,
    entry: u16,
    heard: &mut [u64; HEARD_WORDS],
)
    requires { standing_length ≤ length words.old }
    ensures words_after { words.new ≡ standing_words (standing_in words.old) ++ pending_in words.old }
    ensures heard_after { heard.new ≡ straight_words kind message.now entry }
{
    let standing = standing_words::standing_in(words);
    standing_words::put_standing(words, standing);
    put_straight(heard, message, kind, entry);
}

fn put_straight(words: &mut [u64; HEARD_WORDS], message: &[u8], kind: u64, entry: u16)
    ensures { words.new ≡ straight_words kind message.now entry }
{
    *words = [
        kind,
        wire::number_at::<u32>(message, Header::ID_AT) as u64,
        wire::number_at::<u32>(message, Header::PLATFORM_AT) as u64,
        wire::number_at::<u32>(message, Header::SEQUENCE_AT) as u64,
        entry as u64,
        Header::LENGTH as u64,
        wire::number_at::<u32>(message, Header::PAYLOAD_SIZE_AT) as u64,
        0,
    ];
}
