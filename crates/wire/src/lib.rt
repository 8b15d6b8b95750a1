// Big-endian numbers and runs of bytes in lent slices. Every call is total: a byte past the end reads as 0, and a write
// or a copy that does not fit changes nothing.
#![tactic(auto)]

ghost use Rattle.std.specs.Prelude.{◌≡◌, min, ◌+◌, ◌^◌, ◌<◌, ◌≤◌, leb, length};
ghost use Rattle.wire.specs.Bytes.{number, whole, bytes, padded, written, part};
ghost use Rattle.wire.specs.LowFirst.{swapped};

mod order;
mod words;

use order::WIDEST;
pub use order::{Number, swap64};
pub use words::word_at;

// A number of any width, as `number_at::<u32>(s, at)`.
pub fn number_at<T: Number>(s: &[u8], at: usize) -> T
    ensures { T.value result ≡ number T.exponent s.now at }
{
    if is_whole::<T>(s, at) {
        read(s, at)
    } else {
        T::by_halves(s, at)
    }
}

// A number whose bytes are all there, and 0 where one is past the end: for loops that know that they are, and want one test
// and one load.
pub fn whole_at<T: Number>(s: &[u8], at: usize) -> T
    ensures { T.value result ≡ whole T.exponent s.now at }
{
    if is_whole::<T>(s, at) {
        read(s, at)
    } else {
        T::of_bytes([0; WIDEST])
    }
}

// The same with its bytes in the other order, which are the bytes as they lie: whoever compares many numbers with one swaps that one
// (`swap64`), and none of them.
pub fn swapped_u64(s: &[u8], at: usize) -> u64
    ensures { result ≡ swapped 3 (whole 3 s.now at) }
{
    swap64(whole_at(s, at))
}

// Writes the number's bytes at `at`.
pub fn put_number<T: Number>(s: &mut [u8], at: usize, x: T)
    ensures { s.new ≡ written s.old at (bytes T.exponent (T.value x)) }
{
    put_run(s, at, &x.to_bytes()[..T::width()]);
}

// Writes the whole of `run` at `at`.
pub fn put_run(s: &mut [u8], at: usize, run: &[u8])
    ensures { s.new ≡ written s.old at run.now }
{
    if has_room(s.len(), at, run.len()) {
        s[at..at + run.len()].copy_from_slice(run);
    }
}

// The `count` bytes from `at` on, or an empty part where the slice ends before them.
pub fn part(s: &[u8], at: usize, count: usize) -> &[u8]
    ensures { result.now ≡ part s.now at count }
{
    if has_room(s.len(), at, count) {
        &s[at..at + count]
    } else {
        &s[..0]
    }
}

// Whether `count` bytes from `at` on lie within `len`.
pub fn has_room(len: usize, at: usize, count: usize) -> bool
    ensures { result ≡ leb (at + count) len }
{
    count <= len && at <= len - count
}

// The smaller of two.
pub fn least(a: usize, b: usize) -> usize
    ensures { result ≡ min a b }
{
    a.min(b)
}

// Whether all bytes of a number are there.
fn is_whole<T: Number>(s: &[u8], at: usize) -> bool
    ensures { result ≡ leb (at + 2 ^ T.exponent) (length s.now) }
{
    has_room(s.len(), at, T::width())
}

// A number whose bytes are all there.
fn read<T: Number>(s: &[u8], at: usize) -> T
    requires { at + 2 ^ T.exponent ≤ length s.now }
    ensures { T.value result ≡ number T.exponent s.now at }
{
    T::of_bytes(padded(&s[at..at + T::width()]))
}

// The bytes, with zeros behind them.
fn padded(bytes: &[u8]) -> [u8; WIDEST]
    requires { length bytes.now ≤ 8 }
    ensures { result ≡ padded bytes.now }
{
    let mut all = [0; WIDEST];
    all[..bytes.len()].copy_from_slice(bytes);
    all
}
