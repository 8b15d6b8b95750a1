ghost use Rattle.std.specs.Prelude.{◌≡◌};
ghost use Rattle.mixed_words.specs.TableCalls.{mixed_number, mixed_words, mixed_services, mixed_output, mixed_heard};
ghost use Rattle.mixed_words.specs.SectionCalls.{mixed_in_number, mixed_in_words, mixed_in_services, mixed_in_output, mixed_in_heard};
ghost use Rattle.mixed_words.specs.ServiceCalls.{service_number};

use mixed_words::{ANY_HEARD_WORDS, PARTNERS_WORDS, STAMP_NUMBERS};
use platform_words::PLATFORM_WORDS;
use table::SECTIONS_WORDS;

// Reads a message by its sender's issue, notes the state or the services that it tells, and writes the owed replies at the output's
// start, or delivers the response to a request that is pending: 30 to 33, 1 to 9, 61, 10 for services that have no words, 63, 5, 10 for
// too short an output, or 0 and what was heard.
#[unsafe(no_mangle)]
pub extern "C" fn nyr_receive_mixed(
    own: u8,
    stamp: &[u32; STAMP_NUMBERS],
    partners: &[u64; PARTNERS_WORDS],
    ours: &[u64],
    platform: &mut [u64; PLATFORM_WORDS],
    services: &mut [u64],
    table: &[u8],
    message: &[u8],
    out: &mut [u8],
    heard: &mut [u64; ANY_HEARD_WORDS],
) -> u32
    ensures value { result
        ≡ mixed_number own partners.now ours.now platform.old services.old table.now
        message.now out.old }
    ensures platform_after { platform.new
        ≡ mixed_words own partners.now ours.now platform.old services.old table.now
        message.now out.old }
    ensures services_after { services.new
        ≡ mixed_services own partners.now ours.now platform.old services.old table.now
        message.now out.old }
    ensures out_after { out.new
        ≡ mixed_output own stamp.now partners.now ours.now platform.old services.old
        table.now message.now out.old }
    ensures heard_after { heard.new
        ≡ mixed_heard own partners.now ours.now platform.old services.old table.now
        message.now out.old heard.old }
{
    nyrkovash::nyr_receive_mixed(
        own, stamp, partners, ours, platform, services, table, message, out, heard,
    )
}

// The same by the sections that a check gave: 30 where these do not lie in the table.
#[unsafe(no_mangle)]
pub extern "C" fn nyr_receive_mixed_in(
    own: u8,
    stamp: &[u32; STAMP_NUMBERS],
    partners: &[u64; PARTNERS_WORDS],
    ours: &[u64],
    platform: &mut [u64; PLATFORM_WORDS],
    services: &mut [u64],
    table: &[u8],
    sections: &[u64; SECTIONS_WORDS],
    message: &[u8],
    out: &mut [u8],
    heard: &mut [u64; ANY_HEARD_WORDS],
) -> u32
    ensures value { result
        ≡ mixed_in_number own partners.now ours.now platform.old services.old table.now
        sections.now message.now out.old }
    ensures platform_after { platform.new
        ≡ mixed_in_words own partners.now ours.now platform.old services.old table.now
        sections.now message.now out.old }
    ensures services_after { services.new
        ≡ mixed_in_services own partners.now ours.now platform.old services.old table.now
        sections.now message.now out.old }
    ensures out_after { out.new
        ≡ mixed_in_output own stamp.now partners.now ours.now platform.old services.old
        table.now sections.now message.now out.old }
    ensures heard_after { heard.new
        ≡ mixed_in_heard own partners.now ours.now platform.old services.old table.now
        sections.now message.now out.old heard.old }
{
    nyrkovash::nyr_receive_mixed_in(
        own, stamp, partners, ours, platform, services, table, sections, message, out, heard,
    )
}

// What is known of a service of that platform: 2 AVAILABLE, 1 UNAVAILABLE, 0 nothing.
#[unsafe(no_mangle)]
pub extern "C" fn nyr_service(
    partners: &[u64; PARTNERS_WORDS],
    services: &[u64],
    platform: u32,
    id: u32,
) -> u32
    ensures { result ≡ service_number partners.now services.now platform id }
{
    nyrkovash::nyr_service(partners, services, platform, id)
}
