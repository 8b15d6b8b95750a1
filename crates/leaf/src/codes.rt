// The 13 base codes: how wide a leaf is on the wire and which 64-bit words it takes. Any other code is no leaf: it has no
// bytes and no values.
ghost use Rattle.std.specs.Prelude.{◌≡◌, ◌+◌, ◌%◌, ◌^◌, nat_le};
ghost use Rattle.table.specs.Leaf.{base, width, allowed};
ghost use Rattle.leaf.specs.Limits.{is_signed, range_of, measure};

// 01, "Base codes".
pub const BOOLEAN8: u16 = 0;

pub const INT8: u16 = 1;

pub const CHAR8: u16 = 2;

pub const INT16: u16 = 3;

pub const INT32: u16 = 4;

pub const INT64: u16 = 5;

pub const UINT8: u16 = 6;

pub const BYTE: u16 = 7;

pub const UINT16: u16 = 8;

pub const UINT32: u16 = 9;

pub const UINT64: u16 = 10;

pub const FLOAT32: u16 = 11;

pub const DOUBLE64: u16 = 12;

// The last of as many values as an integer of so many bits has, counted from 0, a boolean having two; the last of ASCII (02,
// request 2); and the last of a float's measures.
const LAST_BOOLEAN: u64 = 1;

const LAST_ASCII: u64 = 127;

const LAST_OF_8: u64 = 255;

const LAST_OF_16: u64 = 65535;

const LAST_OF_32: u64 = 4294967295;

const LAST_OF_64: u64 = 18446744073709551615;

const LAST_FLOAT32: u64 = 2147483647;

const LAST_DOUBLE64: u64 = 9223372036854775807;

const LAST_OF_NONE: u64 = 0;

// The words of a leaf, counted from the least as 0: how many are below 0, and the last. And whether every word that its bytes can be
// is one of them.
#[derive(Clone, Copy)]
pub struct Range {
    pub below: u64,
    pub last: u64,
    pub every: bool,
}

pub fn width(code: u16) -> usize
    ensures { result ≡ width code }
{
    match code {
        BOOLEAN8 => 1,
        INT8 => 1,
        CHAR8 => 1,
        INT16 => 2,
        INT32 => 4,
        INT64 => 8,
        UINT8 => 1,
        BYTE => 1,
        UINT16 => 2,
        UINT32 => 4,
        UINT64 => 8,
        FLOAT32 => 4,
        DOUBLE64 => 8,
        _ => 0,
    }
}

// Whether the word is a value of the base code. The floats are tested by their exponents: of that the compiler makes shorter loops
// than of their measures.
pub fn allowed(code: u16, word: u64) -> bool
    ensures { result ≡ allowed code word }
{
    // The codes before the floats are integers.
    if code < FLOAT32 {
        return in_range(range_of(code), word);
    }
    match code {
        FLOAT32 => (word < 4294967296) & (word / 8388608 % 256 != 255),
        DOUBLE64 => word / 4503599627370496 % 2048 != 2047,
        _ => false,
    }
}

fn in_range(range: Range, word: u64) -> bool
    ensures { result ≡ nat_le ((word + range.below) % 2 ^ 64) range.last }
{
    std::num::wrapping_add_u64(word, range.below) <= range.last
}

// A number that is not above the last of the code's range just where the code takes the word. A signed word is moved up by the
// values below 0; of a float the sign goes, and an exponent of all ones carries into its place.
pub fn measure(code: u16, word: u64) -> u64
    ensures { result ≡ measure (base code) word }
{
    match code {
        FLOAT32 => word - word / 2147483648 % 2 * 2147483648 + 8388608,
        DOUBLE64 => word - word / 9223372036854775808 % 2 * 9223372036854775808 + 4503599627370496,
        _ => std::num::wrapping_add_u64(word, range_of(code).below),
    }
}

// Of an integer that has both signs half of the values are below 0. Of the codes before the floats every word is allowed, save of
// char8.
pub fn range_of(code: u16) -> Range
    ensures { result ≡ range_of (base code) }
{
    let last = last(code);
    let every = (code < FLOAT32) & (code != CHAR8);
    if is_signed(code) {
        Range {
            below: last / 2 + 1,
            last,
            every,
        }
    } else {
        Range {
            below: 0,
            last,
            every,
        }
    }
}

fn is_signed(code: u16) -> bool
    ensures { result ≡ is_signed (base code) }
{
    (code == INT8) | (code == INT16) | (code == INT32) | (code == INT64)
}

// A `match` with an arm for the whole range of each code would be a jump that the processor has to guess at every leaf of a mixed
// record; of this one the compiler makes a list of numbers.
fn last(code: u16) -> u64
    ensures { result ≡ (range_of (base code)).last }
{
    match code {
        BOOLEAN8 => LAST_BOOLEAN,
        INT8 => LAST_OF_8,
        CHAR8 => LAST_ASCII,
        INT16 => LAST_OF_16,
        INT32 => LAST_OF_32,
        INT64 => LAST_OF_64,
        UINT8 => LAST_OF_8,
        BYTE => LAST_OF_8,
        UINT16 => LAST_OF_16,
        UINT32 => LAST_OF_32,
        UINT64 => LAST_OF_64,
        FLOAT32 => LAST_FLOAT32,
        DOUBLE64 => LAST_DOUBLE64,
        _ => LAST_OF_NONE,
    }
}
