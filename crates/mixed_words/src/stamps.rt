// What a message of ours says beside itself where it is written for Issue 3, in three numbers: its timestamp, and our composite's ID.
ghost use Rattle.std.specs.Prelude.{◌≡◌, length, get_or};
ghost use Rattle.mixed_words.specs.HeardWords.{stamp_in, own_composite};

use message3::Stamp;

pub const STAMP_NUMBERS: usize = 3;

// A set-up: platform k is bit k % 64 of word k / 64, set where it speaks Issue 3.
pub const PARTNERS_WORDS: usize = 4;

pub(crate) fn stamp_in(numbers: &[u32]) -> Stamp
    requires { length numbers.now ≡ 3 }
    ensures { result ≡ stamp_in numbers.now }
{
    Stamp {
        seconds: numbers[0],
        nanoseconds: numbers[1],
    }
}

pub(crate) fn composite_in(numbers: &[u32]) -> u32
    requires { length numbers.now ≡ 3 }
    ensures { result ≡ own_composite numbers.now }
{
    numbers[2]
}
