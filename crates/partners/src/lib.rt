// Which platforms speak Issue 3: four words that the caller lends, in which platform k is bit k % 64 of word k / 64. Any words are
// a set-up, and a word that is not there counts as 0: without words all speak Issue 6. Each platform that speaks Issue 3 has a
// block of services, one behind another in the order of their numbers.
#![tactic(auto)]

ghost use Rattle.std.specs.Prelude.{◌≡◌};
ghost use Rattle.partners.specs.Threes.{bit_in, is_three, with_three, three_set, threes_before, block_start};

use message::Own;
use states::WORD_BITS;

// Whether platform k speaks Issue 3; a number above 255 does not.
pub fn is_three(words: &[u64], k: u32) -> bool
    ensures { result ≡ is_three words.now k }
{
    (k < Own::PLATFORMS) & (bit_in(words, k) == 1)
}

// Sets platform k up as one that speaks Issue 3, or as one that does not; a number above 255 changes nothing.
pub fn set(words: &mut [u64], k: u32, three: bool)
    ensures { words.new ≡ three_set words.old k three }
{
    let at = (k / WORD_BITS) as usize;
    if k < Own::PLATFORMS && at < words.len() {
        words[at] = with_three(words[at], k, three);
    }
}

// How many platforms below k speak Issue 3; above 255 there is none.
pub fn before(words: &[u64], k: u32) -> usize
    ensures { result ≡ threes_before words.now k }
{
    let mut count = 0;
    for j in 0..k.min(Own::PLATFORMS) {
        count += bit_in(words, j) as usize;
    }
    count
}

// Where platform k's block of services starts.
pub fn block_start(words: &[u64], k: u32) -> usize
    ensures { result ≡ block_start words.now k }
{
    services::SERVICES * before(words, k)
}

fn bit_in(words: &[u64], k: u32) -> u64
    ensures { result ≡ bit_in words.now k }
{
    (wire::word_at(words, (k / WORD_BITS) as usize) >> (k % WORD_BITS)) % 2
}

// Platform k's word with its bit set, or without it.
fn with_three(word: u64, k: u32, three: bool) -> u64
    ensures { result ≡ with_three word k three }
{
    if three {
        word | states::mask(k)
    } else {
        (word | states::mask(k)) ^ states::mask(k)
    }
}
