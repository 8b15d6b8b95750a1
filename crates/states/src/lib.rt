// The states of the 256 platforms, four words of 64 bits: platform k is bit k % 64 of word k / 64, and UP is a bit that
// is set.
#![tactic(auto)]

ghost use Rattle.std.specs.Prelude.{◌≡◌, ◌/◌, ◌%◌, ◌^◌};
ghost use Rattle.states.specs.States.{word_of, with_word, mask, bit_of, stands_up, turned, with_own, sum_of_ones, how_many_up, fresh_states};

use message::Own;

#[derive(Clone, Copy)]
pub struct States {
    pub w0: u64,
    pub w1: u64,
    pub w2: u64,
    pub w3: u64,
}

// How many platforms a word holds.
pub const WORD_BITS: u32 = 64;

// All others are DOWN.
pub fn fresh(own: Own) -> States
    ensures { result ≡ fresh_states own.platform }
{
    with_own(
        own,
        States {
            w0: 0,
            w1: 0,
            w2: 0,
            w3: 0,
        },
    )
}

// This platform is UP, whatever its bit says; a number above 255 is DOWN.
pub fn is_up(own: Own, s: States, k: u32) -> bool
    ensures { result ≡ stands_up own.platform s k }
{
    (k == own.platform as u32) | ((k < Own::PLATFORMS) & (bit_of(s, k) == 1))
}

pub fn how_many_up(own: Own, s: States) -> u32
    ensures { result ≡ how_many_up own.platform s }
{
    sum_of_ones(with_own(own, s))
}

// The state of platform k the other way round; a number above 255 has none.
pub fn turned(s: States, k: u32) -> States
    ensures { result ≡ turned s k }
{
    if k < Own::PLATFORMS {
        with_word(s, k / WORD_BITS, word_of(s, k / WORD_BITS) ^ mask(k))
    } else {
        s
    }
}

// Platform k's bit in its word.
pub fn mask(k: u32) -> u64
    ensures { result ≡ mask k }
{
    1 << (k % WORD_BITS)
}

fn with_own(own: Own, s: States) -> States
    ensures { result ≡ with_own own.platform s }
{
    let k = own.platform as u32;
    with_word(s, k / WORD_BITS, word_of(s, k / WORD_BITS) | mask(k))
}

fn sum_of_ones(s: States) -> u32
    ensures { result ≡ sum_of_ones s }
{
    s.w0.count_ones() + s.w1.count_ones() + s.w2.count_ones() + s.w3.count_ones()
}

fn bit_of(s: States, k: u32) -> u64
    ensures { result ≡ bit_of s k }
{
    (word_of(s, k / WORD_BITS) >> (k % WORD_BITS)) % 2
}

fn word_of(s: States, i: u32) -> u64
    ensures { result ≡ word_of s i }
{
    match i {
        0 => s.w0,
        1 => s.w1,
        2 => s.w2,
        _ => s.w3,
    }
}

fn with_word(s: States, i: u32, x: u64) -> States
    ensures { result ≡ with_word s i x }
{
    match i {
        0 => States { w0: x, ..s },
        1 => States { w1: x, ..s },
        2 => States { w2: x, ..s },
        _ => States { w3: x, ..s },
    }
}
