// The call for one message among partners of both issues, with the platform, the partners' services and the answer in lent words: as
// the C interface has it.
ghost use Rattle.std.specs.Prelude.{◌≡◌, ◌++◌, ◌≤◌, length, take};
ghost use Rattle.types.specs.Table.{checked};
ghost use Rattle.mixed.specs.Tables.{pending_if};
ghost use Rattle.platform_words.specs.Words.{standing_length, pending_in};
ghost use Rattle.mixed_words.specs.TableCalls.{outcome_with, mixed_number, mixed_words, mixed_services, mixed_output, mixed_heard};

use crate::heard_words::ANY_HEARD_WORDS;
use crate::stamps::{PARTNERS_WORDS, STAMP_NUMBERS};
use crate::{heard_words, stamps};
use message::Own;
use mixed::AnyReceived;
use platform_words::{PENDING_AT, PLATFORM_WORDS};

// Reads a message by its sender's issue, notes the state or the services that it tells, and writes the owed replies at the output's
// start, or delivers the response to a request that is pending: 30 to 33, 1 to 9, 61, 10, 63, 5, 10, or 0 and what was heard.
pub fn receive(
    own: u8,
    stamp: &[u32; STAMP_NUMBERS],
    partners: &[u64; PARTNERS_WORDS],
    ours: &[u64],
    platform: &mut [u64; PLATFORM_WORDS],
    services: &mut [u64],
    table: &[u8],
    message: &[u8],
    out: &mut [u8],
    heard: &mut [u64; ANY_HEARD_WORDS],
) -> u32
    ensures value { result
        ≡ mixed_number own partners.now ours.now platform.old services.old table.now
        message.now out.old }
    ensures platform_after { platform.new
        ≡ mixed_words own partners.now ours.now platform.old services.old table.now
        message.now out.old }
    ensures services_after { services.new
        ≡ mixed_services own partners.now ours.now platform.old services.old table.now
        message.now out.old }
    ensures out_after { out.new
        ≡ mixed_output own stamp.now partners.now ours.now platform.old services.old
        table.now message.now out.old }
    ensures heard_after { heard.new
        ≡ mixed_heard own partners.now ours.now platform.old services.old table.now
        message.now out.old heard.old }
{
    let numbers: &[u32] = stamp;
    let words: &mut [u64] = platform;
    let outcome = taken(
        Own { platform: own },
        numbers,
        partners,
        ours,
        words,
        services,
        table,
        message,
        out,
    );
    heard_words::tell(outcome, words, heard)
}

// The platform's first words are still as they were.
fn taken(
    own: Own,
    numbers: &[u32],
    partners: &[u64],
    ours: &[u64],
    words: &mut [u64],
    services: &mut [u64],
    table: &[u8],
    message: &[u8],
    out: &mut [u8],
) -> AnyReceived
    requires standing_length_in_bounds { standing_length ≤ length words.old }
    requires numbers_len { length numbers.now ≡ 3 }
    ensures value { result
        ≡ outcome_with own.platform partners.now ours.now words.old services.old
        table.now message.now out.old }
    ensures words_after { words.new
        ≡ take standing_length words.old
        ++ pending_if (checked table.now) own.platform partners.now table.now (pending_in words.old)
        message.now }
    ensures services_after { services.new
        ≡ mixed_services own.platform partners.now ours.now words.old services.old
        table.now message.now out.old }
    ensures out_after { out.new
        ≡ mixed_output own.platform numbers.now partners.now ours.now words.old services.old
        table.now message.now out.old }
{
    let stamp = stamps::stamp_in(numbers);
    let composite = stamps::composite_in(numbers);
    let standing = platform_words::standing_in(words);
    mixed::receive(
        own,
        stamp,
        composite,
        partners,
        ours,
        table,
        standing,
        &mut words[PENDING_AT..],
        services,
        message,
        out,
    )
}
