// The call for one message among partners of both issues by the sections that a check gave, in lent words: as the C interface has it.
ghost use Rattle.std.specs.Prelude.{◌≡◌, ◌++◌, ◌≤◌, length, take};
ghost use Rattle.mixed.specs.Receiving.{any_list};
ghost use Rattle.platform_words.specs.Words.{standing_length, pending_in};
ghost use Rattle.mixed_words.specs.SectionCalls.{mixed_in_number, mixed_in_words, mixed_in_services, mixed_in_output, mixed_in_heard};
ghost use Rattle.mixed_words.specs.Within.{outcome_within, number_within, words_within, services_within, output_within, heard_within};

use crate::heard_words::ANY_HEARD_WORDS;
use crate::stamps::{PARTNERS_WORDS, STAMP_NUMBERS};
use crate::{from_bytes, heard_words, stamps};
use message::Own;
use mixed::AnyReceived;
use platform_words::{PENDING_AT, PLATFORM_WORDS};
use table::{BOUNDS_WORDS, SECTIONS_WORDS, Sections};

// `on_table::receive` by the sections that a check gave: 30 where these do not lie in the table. A message of Issue 6 under the ID of an
// operation of the table, which comes most often, is told straight from its bytes; all else goes by `received`, which is handed all as
// it came: what was read for an operation, the compiler then keeps for nothing else.
pub fn receive_in(
    own: u8,
    stamp: &[u32; STAMP_NUMBERS],
    partners: &[u64; PARTNERS_WORDS],
    ours: &[u64],
    platform: &mut [u64; PLATFORM_WORDS],
    services: &mut [u64],
    table: &[u8],
    sections: &[u64; SECTIONS_WORDS],
    message: &[u8],
    out: &mut [u8],
    heard: &mut [u64; ANY_HEARD_WORDS],
) -> u32
    ensures value { result
        ≡ mixed_in_number own partners.now ours.now platform.old services.old table.now
        sections.now message.now out.old }
    ensures platform_after { platform.new
        ≡ mixed_in_words own partners.now ours.now platform.old services.old table.now
        sections.now message.now out.old }
    ensures services_after { services.new
        ≡ mixed_in_services own partners.now ours.now platform.old services.old table.now
        sections.now message.now out.old }
    ensures out_after { out.new
        ≡ mixed_in_output own stamp.now partners.now ours.now platform.old services.old
        table.now sections.now message.now out.old }
    ensures heard_after { heard.new
        ≡ mixed_in_heard own partners.now ours.now platform.old services.old table.now
        sections.now message.now out.old heard.old }
{
    let bounds: &[u64] = sections;
    match from_bytes::six_operation(Own { platform: own }, partners, table, bounds, message) {
        Some((entry, place)) => {
            let words: &mut [u64] = platform;
            from_bytes::straight(words, table, place, entry, message, heard)
        }
        None => received(
            own, stamp, partners, ours, platform, services, table, sections, message, out, heard,
        ),
    }
}

// As `mixed` answers it.
fn received(
    own: u8,
    stamp: &[u32; STAMP_NUMBERS],
    partners: &[u64; PARTNERS_WORDS],
    ours: &[u64],
    platform: &mut [u64; PLATFORM_WORDS],
    services: &mut [u64],
    table: &[u8],
    sections: &[u64; SECTIONS_WORDS],
    message: &[u8],
    out: &mut [u8],
    heard: &mut [u64; ANY_HEARD_WORDS],
) -> u32
    ensures value { result
        ≡ mixed_in_number own partners.now ours.now platform.old services.old table.now
        sections.now message.now out.old }
    ensures platform_after { platform.new
        ≡ mixed_in_words own partners.now ours.now platform.old services.old table.now
        sections.now message.now out.old }
    ensures services_after { services.new
        ≡ mixed_in_services own partners.now ours.now platform.old services.old table.now
        sections.now message.now out.old }
    ensures out_after { out.new
        ≡ mixed_in_output own stamp.now partners.now ours.now platform.old services.old
        table.now sections.now message.now out.old }
    ensures heard_after { heard.new
        ≡ mixed_in_heard own partners.now ours.now platform.old services.old table.now
        sections.now message.now out.old heard.old }
{
    let numbers: &[u32] = stamp;
    let bounds: &[u64] = sections;
    let words: &mut [u64] = platform;
    let s = table::sections_in(bounds);
    if table::within(table, s) {
        answered(
            Own { platform: own },
            numbers,
            partners,
            ours,
            words,
            services,
            table,
            s,
            &bounds[BOUNDS_WORDS..],
            message,
            out,
            heard,
        )
    } else {
        table::CUT_SHORT
    }
}

fn answered(
    own: Own,
    numbers: &[u32],
    partners: &[u64],
    ours: &[u64],
    words: &mut [u64],
    services: &mut [u64],
    table: &[u8],
    s: Sections,
    index: &[u64],
    message: &[u8],
    out: &mut [u8],
    heard: &mut [u64; ANY_HEARD_WORDS],
) -> u32
    requires standing_length_in_bounds { standing_length ≤ length words.old }
    requires numbers_len { length numbers.now ≡ 3 }
    ensures value { result
        ≡ number_within own.platform partners.now ours.now words.old services.old
        table.now s index.now message.now out.old }
    ensures words_after { words.new
        ≡ words_within own.platform partners.now ours.now words.old services.old
        table.now s index.now message.now out.old }
    ensures services_after { services.new
        ≡ services_within own.platform partners.now ours.now words.old services.old
        table.now s index.now message.now out.old }
    ensures out_after { out.new
        ≡ output_within own.platform numbers.now partners.now ours.now words.old
        services.old table.now s index.now message.now out.old }
    ensures heard_after { heard.new
        ≡ heard_within own.platform partners.now ours.now words.old services.old
        table.now s index.now message.now out.old heard.old }
{
    let outcome = taken(
        own, numbers, partners, ours, words, services, table, s, index, message, out,
    );
    heard_words::tell(outcome, words, heard)
}

// The platform's first words are still as they were.
fn taken(
    own: Own,
    numbers: &[u32],
    partners: &[u64],
    ours: &[u64],
    words: &mut [u64],
    services: &mut [u64],
    table: &[u8],
    s: Sections,
    index: &[u64],
    message: &[u8],
    out: &mut [u8],
) -> AnyReceived
    requires standing_length_in_bounds { standing_length ≤ length words.old }
    requires numbers_len { length numbers.now ≡ 3 }
    ensures value { result
        ≡ outcome_within own.platform partners.now ours.now words.old services.old
        table.now s index.now message.now out.old }
    ensures words_after { words.new
        ≡ take standing_length words.old
        ++ any_list own.platform partners.now table.now s index.now (pending_in words.old)
        message.now }
    ensures services_after { services.new
        ≡ services_within own.platform partners.now ours.now words.old services.old
        table.now s index.now message.now out.old }
    ensures out_after { out.new
        ≡ output_within own.platform numbers.now partners.now ours.now words.old
        services.old table.now s index.now message.now out.old }
{
    let stamp = stamps::stamp_in(numbers);
    let composite = stamps::composite_in(numbers);
    let standing = platform_words::standing_in(words);
    mixed::receive_within(
        own,
        stamp,
        composite,
        partners,
        ours,
        table,
        s,
        index,
        standing,
        &mut words[PENDING_AT..],
        services,
        message,
        out,
    )
}
