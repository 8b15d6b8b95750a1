// A message of Issue 6 under the ID of an operation of the table, told straight from its bytes. From `straight` on it is
// `platform_words`' own text again: called from there too, its functions would be compiled as calls, which cost an operation half its time.
ghost use Rattle.std.specs.Prelude.{◌≡◌, ◌++◌, ◌≤◌, length, take};
ghost use Rattle.table.specs.Words.{bounds_words};
ghost use Rattle.message.specs.Header.{header_in};
ghost use Rattle.platform.specs.Receiving.{list_answered};
ghost use Rattle.platform_words.specs.Words.{standing_length, standing_in, pending_in, standing_words};
ghost use Rattle.platform_words.specs.Within.{is_awaited, kind_heard, list_heard};
ghost use Rattle.mixed_words.specs.Within.{six_in, operation_in, six_words, straight_number, straight_platform, straight_heard};

use crate::heard_words;
use crate::heard_words::ANY_HEARD_WORDS;
use message::{Header, Own};
use platform_words::PENDING_AT;
use table::BOUNDS_WORDS;

// The operation of the table that a message of Issue 6 is, where nothing refuses it. Its own bytes are asked before the sections are
// read: any other message is answered where they are read again.
pub(crate) fn six_operation(
    own: Own,
    partners: &[u64],
    table: &[u8],
    bounds: &[u64],
    message: &[u8],
) -> Option<(u16, usize)>
    requires { bounds_words ≤ length bounds.now }
    ensures { result
        ≡ six_in own.platform partners.now table.now bounds.now message.now }
{
    if wire::number_at::<u8>(message, Header::DOMAIN_AT) == Header::PLATFORM_DOMAIN {
        return None;
    }
    if message::read_refusal(own, message) != 0 {
        return None;
    }
    if partners::is_three(
        partners,
        wire::number_at::<u32>(message, Header::PLATFORM_AT),
    ) {
        return None;
    }
    operation_in(
        table,
        bounds,
        wire::number_at::<u32>(message, Header::ID_AT),
    )
}

// The operation of that ID, where the sections lie in the table.
fn operation_in(table: &[u8], bounds: &[u64], id: u32) -> Option<(u16, usize)>
    requires { bounds_words ≤ length bounds.now }
    ensures { result ≡ operation_in table.now bounds.now id }
{
    let s = table::sections_in(bounds);
    if table::within(table, s) {
        operations::find(table, &bounds[BOUNDS_WORDS..], s.operations.count, id)
    } else {
        None
    }
}

// An operation or a response: 61 where no pending request asked for it.
pub(crate) fn straight(
    words: &mut [u64],
    table: &[u8],
    place: usize,
    entry: u16,
    message: &[u8],
    heard: &mut [u64; ANY_HEARD_WORDS],
) -> u32
    requires { standing_length ≤ length words.old }
    ensures value { result ≡ straight_number words.old table.now place message.now }
    ensures words_after { words.new ≡ straight_platform words.old table.now place message.now }
    ensures heard_after { heard.new
        ≡ straight_heard words.old table.now place message.now entry heard.old }
{
    let kind = kind_in(words, table, place, message);
    if kind == platform_words::NOTHING {
        platform::NOT_AWAITED
    } else {
        tell_straight(words, message, kind, entry, heard);
        0
    }
}

// The list is lent by itself, and the platform's first words are still as they were.
fn kind_in(words: &mut [u64], table: &[u8], place: usize, message: &[u8]) -> u64
    requires { standing_length ≤ length words.old }
    ensures value { result ≡ kind_heard (pending_in words.old) table.now place message.now }
    ensures words_after { words.new
        ≡ take standing_length words.old ++ list_heard (pending_in words.old) table.now place message.now }
{
    kind_heard(&mut words[PENDING_AT..], table, place, message)
}

// Under the ID of a request that we send it is the response to one that is pending, which then is so no more, or nothing (02, 1).
fn kind_heard(list: &mut [u64], table: &[u8], place: usize, message: &[u8]) -> u64
    ensures value { result ≡ kind_heard list.old table.now place message.now }
    ensures list_after { list.new ≡ list_heard list.old table.now place message.now }
{
    if operations::kind_at(table, place) == operations::REQUEST_SENT {
        if take_response(list, message) {
            platform_words::RESPONSE
        } else {
            platform_words::NOTHING
        }
    } else {
        platform_words::OPERATION
    }
}

fn take_response(list: &mut [u64], message: &[u8]) -> bool
    ensures value { result ≡ is_awaited list.old message.now }
    ensures list_after { list.new ≡ list_answered list.old (header_in message.now) }
{
    let sequence = wire::number_at::<u32>(message, Header::SEQUENCE_AT);
    let id = wire::number_at::<u32>(message, Header::ID_AT);
    let sender = wire::number_at::<u32>(message, Header::PLATFORM_AT);
    pending::take_response(list, sequence, id, sender)
}

// What was heard, and the platform's words with the own number that they mean.
fn tell_straight(
    words: &mut [u64],
    message: &[u8],
    kind: u64,
    entry: u16,
    heard: &mut [u64; ANY_HEARD_WORDS],
)
    requires { standing_length ≤ length words.old }
    ensures words_after { words.new ≡ standing_words (standing_in words.old) ++ pending_in words.old }
    ensures heard_after { heard.new ≡ six_words kind message.now entry }
{
    let standing = platform_words::standing_in(words);
    platform_words::keep_standing(words, standing);
    put_straight(heard, message, kind, entry);
}

// Nothing is owed for an operation or a response.
fn put_straight(words: &mut [u64; ANY_HEARD_WORDS], message: &[u8], kind: u64, entry: u16)
    ensures { words.new ≡ six_words kind message.now entry }
{
    *words = [
        kind,
        wire::number_at::<u32>(message, Header::ID_AT) as u64,
        wire::number_at::<u32>(message, Header::PLATFORM_AT) as u64,
        wire::number_at::<u32>(message, Header::SEQUENCE_AT) as u64,
        entry as u64,
        Header::LENGTH as u64,
        wire::number_at::<u32>(message, Header::PAYLOAD_SIZE_AT) as u64,
        0,
        heard_words::ISSUE_6,
        0,
        0,
        0,
    ];
}
