// A request written in its target's issue, with the platform and the answer in lent words: as the C interface has it.
ghost use Rattle.std.specs.Prelude.{◌≡◌, length};
ghost use Rattle.mixed_words.specs.HeardWords.{stamp_in};
ghost use Rattle.mixed_words.specs.SendCalls.{issue_for, mixed_send_number, mixed_send_words, mixed_send_output, mixed_send_sent};

use crate::stamps;
use crate::stamps::{PARTNERS_WORDS, STAMP_NUMBERS};
use platform_words::{PLATFORM_WORDS, SENT_WORDS};
use requests::Issue;
use table::SECTIONS_WORDS;

// Sends a request of this platform to platform `target` in that platform's issue: 30 where the sections do not lie in the table, 62, 60,
// 5, 10, or 0 and how many bytes were written at the output's start, and the request's number.
pub fn send(
    own: u8,
    stamp: &[u32; STAMP_NUMBERS],
    partners: &[u64; PARTNERS_WORDS],
    platform: &mut [u64; PLATFORM_WORDS],
    table: &[u8],
    sections: &[u64; SECTIONS_WORDS],
    id: u32,
    target: u32,
    payload: &[u8],
    out: &mut [u8],
    sent: &mut [u64; SENT_WORDS],
) -> u32
    ensures value { result
        ≡ mixed_send_number stamp.now partners.now platform.old table.now sections.now id target
        payload.now out.old }
    ensures platform_after { platform.new
        ≡ mixed_send_words stamp.now partners.now platform.old table.now sections.now id target
        payload.now out.old }
    ensures out_after { out.new
        ≡ mixed_send_output own stamp.now partners.now platform.old table.now sections.now id target
        payload.now out.old }
    ensures sent_after { sent.new
        ≡ mixed_send_sent stamp.now partners.now platform.old table.now sections.now id target
        payload.now out.old sent.old }
{
    let numbers: &[u32] = stamp;
    let issue = issue_for(numbers, partners, target);
    platform_words::send(
        own, issue, platform, table, sections, id, target, payload, out, sent,
    )
}

// The issue that the target speaks. Of the three numbers the composite's ID is not used: no request tells it.
fn issue_for(numbers: &[u32], partners: &[u64], target: u32) -> Issue
    requires { length numbers.now ≡ 3 }
    ensures { result ≡ issue_for partners.now (stamp_in numbers.now) target }
{
    if partners::is_three(partners, target) {
        Issue::Three(stamps::stamp_in(numbers))
    } else {
        Issue::Six
    }
}
