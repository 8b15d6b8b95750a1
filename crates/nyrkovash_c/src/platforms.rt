ghost use Rattle.std.specs.Prelude.{◌≡◌};
ghost use Rattle.states.specs.States.{how_many_up};
ghost use Rattle.platform_words.specs.Words.{states_in};
ghost use Rattle.platform_words.specs.StateCalls.{fresh_words, up_number};
ghost use Rattle.platform_words.specs.TableCalls.{receive_number, receive_words, receive_output, receive_heard};
ghost use Rattle.platform_words.specs.SectionCalls.{receive_in_number, receive_in_words, receive_in_output, receive_in_heard};

use platform_words::{HEARD_WORDS, PLATFORM_WORDS};
use table::SECTIONS_WORDS;

// A fresh platform: nothing is pending.
#[unsafe(no_mangle)]
pub extern "C" fn nyr_start(own: u8, platform: &mut [u64; PLATFORM_WORDS]) -> u32
    ensures value { result ≡ 0 }
    ensures platform_after { platform.new ≡ fresh_words own }
{
    nyrkovash::nyr_start(own, platform)
}

// Reads a message, notes the state that it tells, and writes the owed replies at the output's start, or delivers the response to
// a request that is pending: 30 to 33, 1 to 9, 61, 10, or 0 and what was heard.
#[unsafe(no_mangle)]
pub extern "C" fn nyr_receive(
    own: u8,
    platform: &mut [u64; PLATFORM_WORDS],
    table: &[u8],
    message: &[u8],
    out: &mut [u8],
    heard: &mut [u64; HEARD_WORDS],
) -> u32
    ensures value { result ≡ receive_number own platform.old table.now message.now out.old }
    ensures platform_after { platform.new ≡ receive_words own platform.old table.now message.now out.old }
    ensures out_after { out.new ≡ receive_output own platform.old table.now message.now out.old }
    ensures heard_after { heard.new
        ≡ receive_heard own platform.old table.now message.now out.old heard.old }
{
    nyrkovash::nyr_receive(own, platform, table, message, out, heard)
}

// The same by the sections that a check gave: 30 where these do not lie in the table.
#[unsafe(no_mangle)]
pub extern "C" fn nyr_receive_in(
    own: u8,
    platform: &mut [u64; PLATFORM_WORDS],
    table: &[u8],
    sections: &[u64; SECTIONS_WORDS],
    message: &[u8],
    out: &mut [u8],
    heard: &mut [u64; HEARD_WORDS],
) -> u32
    ensures value { result ≡ receive_in_number own platform.old table.now sections.now message.now out.old }
    ensures platform_after { platform.new
        ≡ receive_in_words own platform.old table.now sections.now message.now out.old }
    ensures out_after { out.new
        ≡ receive_in_output own platform.old table.now sections.now message.now out.old }
    ensures heard_after { heard.new
        ≡ receive_in_heard own platform.old table.now sections.now message.now out.old
        heard.old }
{
    nyrkovash::nyr_receive_in(own, platform, table, sections, message, out, heard)
}

// 1 where there is a platform of that number and it is UP, else 0.
#[unsafe(no_mangle)]
pub extern "C" fn nyr_is_up(own: u8, platform: &[u64; PLATFORM_WORDS], number: u32) -> u32
    ensures { result ≡ up_number own platform.now number }
{
    nyrkovash::nyr_is_up(own, platform, number)
}

// How many of the 256 are UP, this one counted.
#[unsafe(no_mangle)]
pub extern "C" fn nyr_how_many_up(own: u8, platform: &[u64; PLATFORM_WORDS]) -> u32
    ensures { result ≡ how_many_up own (states_in platform.now) }
{
    nyrkovash::nyr_how_many_up(own, platform)
}
