// A platform in lent words: read, written, made fresh, and asked who is UP. Its first five words are the states and the next own
// number; behind these stands the list of the requests that are pending (`pending`).
ghost use Rattle.std.specs.Prelude.{◌≡◌, ◌++◌, ◌≤◌, length};
ghost use Rattle.states.specs.States.{how_many_up};
ghost use Rattle.platform_words.specs.Words.{standing_length, states_in, next_in, standing_in, pending_in, standing_words, with_standing};
ghost use Rattle.platform_words.specs.StateCalls.{fresh_words, up_number};

use message::Own;
use platform::Standing;
use states::States;

// How many words a platform is.
pub const PLATFORM_WORDS: usize = 133;

// Where the list of the pending requests starts.
pub const PENDING_AT: usize = 5;

// Where the next own number stands.
pub(crate) const NEXT_AT: usize = 4;

// One more than the largest own number.
const NUMBERS: u64 = 4294967296;

// A fresh platform: nothing is pending.
pub fn fresh(own: u8, platform: &mut [u64; PLATFORM_WORDS]) -> u32
    ensures value { result ≡ 0 }
    ensures platform_after { platform.new ≡ fresh_words own }
{
    *platform = [0u64; PLATFORM_WORDS];
    let standing = platform::fresh(Own { platform: own });
    let words: &mut [u64] = platform;
    put_standing(words, standing);
    0
}

// 1 where the platform of that number is UP, else 0; one above 255 is DOWN.
pub fn is_up(own: u8, platform: &[u64; PLATFORM_WORDS], number: u32) -> u32
    ensures { result ≡ up_number own platform.now number }
{
    u32::from(states::is_up(Own { platform: own }, states_in(platform), number))
}

// How many of the 256 are UP, this one counted.
pub fn how_many_up(own: u8, platform: &[u64; PLATFORM_WORDS]) -> u32
    ensures { result ≡ how_many_up own (states_in platform.now) }
{
    states::how_many_up(Own { platform: own }, states_in(platform))
}

// The states and the next own number that the words are.
pub fn standing_in(words: &[u64]) -> Standing
    ensures { result ≡ standing_in words.now }
{
    Standing {
        states: states_in(words),
        next: next_in(words),
    }
}

pub(crate) fn next_in(words: &[u64]) -> u32
    ensures { result ≡ next_in words.now }
{
    (wire::word_at(words, NEXT_AT) % NUMBERS) as u32
}

// States and next own number kept from now on; where there are no words for them nothing is written.
pub fn keep_standing(words: &mut [u64], standing: Standing)
    ensures { words.new ≡ with_standing words.old standing }
{
    if PENDING_AT <= words.len() {
        put_standing(words, standing);
    }
}

// The list stays where it is.
pub(crate) fn put_standing(words: &mut [u64], standing: Standing)
    requires { standing_length ≤ length words.old }
    ensures { words.new ≡ standing_words standing ++ pending_in words.old }
{
    let states = standing.states;
    words[0] = states.w0;
    words[1] = states.w1;
    words[2] = states.w2;
    words[3] = states.w3;
    words[NEXT_AT] = standing.next as u64;
}

fn states_in(words: &[u64]) -> States
    ensures { result ≡ states_in words.now }
{
    States {
        w0: wire::word_at(words, 0),
        w1: wire::word_at(words, 1),
        w2: wire::word_at(words, 2),
        w3: wire::word_at(words, 3),
    }
}
