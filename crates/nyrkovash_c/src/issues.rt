ghost use Rattle.std.specs.Prelude.{◌≡◌};
ghost use Rattle.nyrkovash.specs.IssueCalls.{partners_left, any_number, any_answer, write_number3, write_output3, write_given3};

use mixed_words::PARTNERS_WORDS;
use nyrkovash::ANY_READING_WORDS;

// Sets one platform up: 3 is Issue 3, any other number Issue 6. A platform above 255 changes nothing.
#[unsafe(no_mangle)]
pub extern "C" fn nyr_partners_set(
    partners: &mut [u64; PARTNERS_WORDS],
    platform: u32,
    issue: u32,
) -> u32
    ensures value { result ≡ 0 }
    ensures partners_after { partners.new ≡ partners_left partners.old platform issue }
{
    nyrkovash::nyr_partners_set(partners, platform, issue)
}

// Reads a message at this platform by its sender's issue: 1 to 9, or 0 and the message.
#[unsafe(no_mangle)]
pub extern "C" fn nyr_read_mixed(
    own: u8,
    partners: &[u64; PARTNERS_WORDS],
    message: &[u8],
    answer: &mut [u64; ANY_READING_WORDS],
) -> u32
    ensures value { result ≡ any_number partners.now own message.now }
    ensures answer_after { answer.new ≡ any_answer partners.now own message.now answer.old }
{
    nyrkovash::nyr_read_mixed(own, partners, message, answer)
}

// Writes a message of this platform for a partner that speaks Issue 3, sent at this time, at the start of `out`: 4, 5, 7 to 9, 10
// for too short an output, or 0 and how many bytes were written.
#[unsafe(no_mangle)]
pub extern "C" fn nyr_write_3(
    own: u8,
    seconds: u32,
    nanoseconds: u32,
    domain: u8,
    id: u32,
    sequence: u32,
    payload: &[u8],
    out: &mut [u8],
    written: &mut usize,
) -> u32
    ensures value { result ≡ write_number3 domain id payload.now out.old }
    ensures out_after { out.new ≡ write_output3 own seconds nanoseconds domain id sequence payload.now out.old }
    ensures written_after { written.new ≡ write_given3 domain id payload.now out.old written.old }
{
    nyrkovash::nyr_write_3(
        own,
        seconds,
        nanoseconds,
        domain,
        id,
        sequence,
        payload,
        out,
        written,
    )
}
