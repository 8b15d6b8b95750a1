// A run of words of one base code, judged in one loop with no test inside, so that the compiler goes over several words at once.
ghost use Rattle.std.specs.Prelude.{◌≡◌, true, ◌+◌, ◌≤◌, ◌<◌, length};
ghost use Rattle.pack.specs.JudgedRuns.{AllThere};

// Whether the code takes every word. A call for each code, so that the compiler makes its own loop of each.
pub(crate) fn judged(words: &[u64], from: usize, code: u16, count: usize) -> bool
    requires { from + count ≤ length words.now }
    ensures { result ≡ true → AllThere words.now code from count }
{
    match code {
        leaf::BOOLEAN8 => judged_each(words, from, leaf::BOOLEAN8, count),
        leaf::INT8 => judged_each(words, from, leaf::INT8, count),
        leaf::CHAR8 => judged_each(words, from, leaf::CHAR8, count),
        leaf::INT16 => judged_each(words, from, leaf::INT16, count),
        leaf::INT32 => judged_each(words, from, leaf::INT32, count),
        leaf::INT64 => judged_each(words, from, leaf::INT64, count),
        leaf::UINT8 => judged_each(words, from, leaf::UINT8, count),
        leaf::BYTE => judged_each(words, from, leaf::BYTE, count),
        leaf::UINT16 => judged_each(words, from, leaf::UINT16, count),
        leaf::UINT32 => judged_each(words, from, leaf::UINT32, count),
        leaf::UINT64 => judged_each(words, from, leaf::UINT64, count),
        leaf::FLOAT32 => judged_each(words, from, leaf::FLOAT32, count),
        leaf::DOUBLE64 => judged_each(words, from, leaf::DOUBLE64, count),
        _ => false,
    }
}

// By one test for all: no measure is above what they are put together to, and that is not above the last of the code's range where
// none is, since the last is one less than a power of two.
fn judged_each(words: &[u64], from: usize, code: u16, count: usize) -> bool
    requires { (code < 13) × (from + count ≤ length words.now) }
    ensures { result ≡ true → AllThere words.now code from count }
{
    let mut all: u64 = 0;
    for k in 0..count {
        all = all | leaf::measure(code, words[from + k]);
    }
    all <= leaf::range_of(code).last
}
