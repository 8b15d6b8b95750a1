ghost use Rattle.std.specs.Prelude.{◌≡◌};
ghost use Rattle.platform_words.specs.SendCalls.{send_number, send_words, send_output, send_sent};
ghost use Rattle.platform_words.specs.PendingCalls.{cancel_count, cancel_words, awaited_words};
ghost use Rattle.mixed_words.specs.SendCalls.{mixed_send_number, mixed_send_words, mixed_send_output, mixed_send_sent};

use mixed_words::{PARTNERS_WORDS, STAMP_NUMBERS};
use platform_words::{AWAITED_WORDS, PLATFORM_WORDS, SENT_WORDS};
use table::SECTIONS_WORDS;

// Sends a request of this platform to platform `target`, in Issue 6: 30 where the sections do not lie in the table, 62, 60, 5, 10, or
// 0 and how many bytes were written at the output's start, and the request's number.
#[unsafe(no_mangle)]
pub extern "C" fn nyr_send(
    own: u8,
    platform: &mut [u64; PLATFORM_WORDS],
    table: &[u8],
    sections: &[u64; SECTIONS_WORDS],
    id: u32,
    target: u32,
    payload: &[u8],
    out: &mut [u8],
    sent: &mut [u64; SENT_WORDS],
) -> u32
    ensures value { result ≡ send_number platform.old table.now sections.now id payload.now out.old }
    ensures platform_after { platform.new
        ≡ send_words platform.old table.now sections.now id target payload.now out.old }
    ensures out_after { out.new
        ≡ send_output own platform.old table.now sections.now id payload.now out.old }
    ensures sent_after { sent.new
        ≡ send_sent platform.old table.now sections.now id payload.now out.old
        sent.old }
{
    nyrkovash::nyr_send(
        own, platform, table, sections, id, target, payload, out, sent,
    )
}

// The same in the issue that the target speaks, a message of Issue 3 with this timestamp.
#[unsafe(no_mangle)]
pub extern "C" fn nyr_send_mixed(
    own: u8,
    stamp: &[u32; STAMP_NUMBERS],
    partners: &[u64; PARTNERS_WORDS],
    platform: &mut [u64; PLATFORM_WORDS],
    table: &[u8],
    sections: &[u64; SECTIONS_WORDS],
    id: u32,
    target: u32,
    payload: &[u8],
    out: &mut [u8],
    sent: &mut [u64; SENT_WORDS],
) -> u32
    ensures value { result
        ≡ mixed_send_number stamp.now partners.now platform.old table.now sections.now id target
        payload.now out.old }
    ensures platform_after { platform.new
        ≡ mixed_send_words stamp.now partners.now platform.old table.now sections.now id target
        payload.now out.old }
    ensures out_after { out.new
        ≡ mixed_send_output own stamp.now partners.now platform.old table.now sections.now id target
        payload.now out.old }
    ensures sent_after { sent.new
        ≡ mixed_send_sent stamp.now partners.now platform.old table.now sections.now id target
        payload.now out.old sent.old }
{
    nyrkovash::nyr_send_mixed(
        own, stamp, partners, platform, table, sections, id, target, payload, out, sent,
    )
}

// Gives up the request of this number; 1 where there was one, else 0 and no word changed.
#[unsafe(no_mangle)]
pub extern "C" fn nyr_cancel(
    platform: &mut [u64; PLATFORM_WORDS],
    sequence: u32,
    cancelled: &mut usize,
) -> u32
    ensures value { result ≡ 0 }
    ensures platform_after { platform.new ≡ cancel_words platform.old sequence }
    ensures cancelled_after { cancelled.new ≡ cancel_count platform.old sequence }
{
    nyrkovash::nyr_cancel(platform, sequence, cancelled)
}

// What is pending under a number.
#[unsafe(no_mangle)]
pub extern "C" fn nyr_pending(
    platform: &[u64; PLATFORM_WORDS],
    sequence: u32,
    awaited: &mut [u64; AWAITED_WORDS],
) -> u32
    ensures value { result ≡ 0 }
    ensures awaited_after { awaited.new ≡ awaited_words platform.now sequence }
{
    nyrkovash::nyr_pending(platform, sequence, awaited)
}
