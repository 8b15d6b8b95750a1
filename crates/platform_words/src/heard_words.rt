// What was heard, in lent words.
ghost use Rattle.std.specs.Prelude.{◌≡◌, [], ◌∷◌, ◌≤◌, length};
ghost use Rattle.message.specs.Platform.{status_value};
ghost use Rattle.platform.specs.Noting.{number_given};
ghost use Rattle.platform_words.specs.Words.{standing_length, pending_in};
ghost use Rattle.platform_words.specs.HeardWords.{heard_words, response_words, heard_after, platform_after};

use crate::standing_words;
use message::{Header, Status};
use platform::{Heard, Noting, Received};

// How many words an answer is.
pub const HEARD_WORDS: usize = 8;

// What a message was.
pub const STATUS: u64 = 1;

pub const REQUEST: u64 = 2;

pub const UNKNOWN_OPERATION: u64 = 3;

pub const PULL_OF_ALL: u64 = 4;

pub const PULL_OF_ONE: u64 = 5;

pub const NOT_VERSIONED_DATA: u64 = 6;

pub const OPERATION: u64 = 7;

pub const NOT_IN_TABLE: u64 = 8;

pub const RESPONSE: u64 = 9;

// The platform's first words and the answer are written only where nothing was refused; its list is as it should be.
pub(crate) fn tell(outcome: Received, platform: &mut [u64], heard: &mut [u64; HEARD_WORDS]) -> u32
    requires { standing_length ≤ length platform.old }
    ensures value { result ≡ number_given outcome.answer }
    ensures platform_after { platform.new ≡ platform_after outcome platform.old (pending_in platform.old) }
    ensures heard_after { heard.new ≡ heard_after outcome heard.old }
{
    let given = outcome.answer;
    let standing = outcome.standing;
    match given {
        Noting::Refused(number) => number,
        Noting::Noted {
            header,
            heard: what,
            written,
        } => {
            standing_words::put_standing(platform, standing);
            put_heard(heard, header, what, written);
            0
        }
        Noting::Response {
            header,
            entry,
            start,
            length,
        } => {
            standing_words::put_standing(platform, standing);
            put_response(heard, header, entry, start, length);
            0
        }
    }
}

fn put_heard(words: &mut [u64; HEARD_WORDS], header: Header, heard: Heard, replies: usize)
    ensures { words.new ≡ heard_words header replies heard }
{
    match heard {
        Heard::Status(status) => put_value(words, header, STATUS, status_of(status), replies),
        Heard::Request => put_value(words, header, REQUEST, 0, replies),
        Heard::UnknownOperation(id) => put_value(words, header, UNKNOWN_OPERATION, id, replies),
        Heard::PullOfAll => put_value(words, header, PULL_OF_ALL, 0, replies),
        Heard::PullOfOne(id, entry) => {
            put_entry(words, header, PULL_OF_ONE, id, entry, 0, 0, replies)
        }
        Heard::NotVersionedData(id) => put_value(words, header, NOT_VERSIONED_DATA, id, replies),
        Heard::Operation {
            entry,
            start,
            length,
        } => put_entry(
            words, header, OPERATION, header.id, entry, start, length, replies,
        ),
        Heard::NotInTable(id) => put_value(words, header, NOT_IN_TABLE, id, replies),
    }
}

// Nothing is owed for a response.
fn put_response(
    words: &mut [u64; HEARD_WORDS],
    header: Header,
    entry: u16,
    start: usize,
    length: usize,
)
    ensures { words.new ≡ response_words header entry start length }
{
    put_entry(words, header, RESPONSE, header.id, entry, start, length, 0);
}

fn put_value(words: &mut [u64; HEARD_WORDS], header: Header, kind: u64, value: u32, replies: usize)
    ensures { words.new ≡ (kind ∷ value ∷ header.platform ∷ header.sequence ∷ 0 ∷ 0 ∷ 0 ∷ replies ∷ []) }
{
    put_entry(words, header, kind, value, 0, 0, 0, replies);
}

fn put_entry(
    words: &mut [u64; HEARD_WORDS],
    header: Header,
    kind: u64,
    value: u32,
    entry: u16,
    start: usize,
    length: usize,
    replies: usize,
)
    ensures { words.new ≡ (kind ∷ value ∷ header.platform ∷ header.sequence ∷ entry ∷ start ∷ length ∷ replies ∷ []) }
{
    *words = [
        kind,
        value as u64,
        header.platform as u64,
        header.sequence as u64,
        entry as u64,
        start as u64,
        length as u64,
        replies as u64,
    ];
}

fn status_of(status: Status) -> u32
    ensures { result ≡ status_value status }
{
    match status {
        Status::Down => 0,
        Status::Up => 1,
    }
}
