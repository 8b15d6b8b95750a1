// The requests that are pending, in a platform's lent words: one given up, and one asked for.
ghost use Rattle.std.specs.Prelude.{◌≡◌, ◌≤◌, length};
ghost use Rattle.pending.specs.Free.{is_pending};
ghost use Rattle.platform_words.specs.Words.{standing_length, pending_in};
ghost use Rattle.platform_words.specs.PendingCalls.{cancel_count, cancel_words, awaited_words};

use crate::standing_words::{PENDING_AT, PLATFORM_WORDS};

// How many words a request that is pending is.
pub const AWAITED_WORDS: usize = 3;

// Where a request is pending.
pub const AWAITED: u64 = 1;

// Gives up the request of this number; 1 where there was one, else 0 and no word changed.
pub fn cancel(platform: &mut [u64; PLATFORM_WORDS], number: u32, cancelled: &mut usize) -> u32
    ensures value { result ≡ 0 }
    ensures platform_after { platform.new ≡ cancel_words platform.old number }
    ensures cancelled_after { cancelled.new ≡ cancel_count platform.old number }
{
    let words: &mut [u64] = platform;
    *cancelled = usize::from(cancel_in(words, number));
    0
}

// What is pending under a number.
pub fn awaited(
    platform: &[u64; PLATFORM_WORDS],
    number: u32,
    awaited: &mut [u64; AWAITED_WORDS],
) -> u32
    ensures value { result ≡ 0 }
    ensures awaited_after { awaited.new ≡ awaited_words platform.now number }
{
    let words: &[u64] = platform;
    *awaited = match pending::awaited(&words[PENDING_AT..], number) {
        Some((id, target)) => [AWAITED, id as u64, target],
        None => [0; AWAITED_WORDS],
    };
    0
}

fn cancel_in(words: &mut [u64], number: u32) -> bool
    requires { standing_length ≤ length words.old }
    ensures value { result ≡ is_pending (pending_in words.old) number }
    ensures words_after { words.new ≡ cancel_words words.old number }
{
    pending::cancel(&mut words[PENDING_AT..], number)
}
