// The parts of a line, put into a lent output one behind another: each is written whole where it fits, or not at all, and
// the answer is where the next one goes.
ghost use Rattle.std.specs.Prelude.{◌≡◌, ◌+◌, ◌≤◌, ◌++◌, length, drop};
ghost use Rattle.wire.specs.Bytes.{written};
ghost use Rattle.recording.specs.Decimal.{digit_limit, decimal};
ghost use Rattle.recording.specs.Places.{field_limit, behind, spaced};

// Every number of 64 bits has so many digits or fewer.
const DIGITS: usize = 20;

// And a space before them.
const FIELD: usize = DIGITS + 1;

pub(crate) fn put_text(output: &mut [u8], at: usize, text: &[u8]) -> usize
    ensures value { result ≡ behind (length output.old) at text.now }
    ensures output_after { output.new ≡ written output.old at text.now }
{
    if wire::has_room(output.len(), at, text.len()) {
        wire::put_run(output, at, text);
        at + text.len()
    } else {
        at
    }
}

pub(crate) fn put_decimal(output: &mut [u8], at: usize, n: u64) -> usize
    ensures value { result ≡ behind (length output.old) at (decimal n) }
    ensures output_after { output.new ≡ written output.old at (decimal n) }
{
    let mut space = [0u8; DIGITS];
    let digits: &mut [u8] = &mut space;
    let start = number_before(digits, DIGITS, n);
    let made = &digits[..];
    put_text(output, at, &made[start..])
}

// A number behind a space.
pub(crate) fn put_number(output: &mut [u8], at: usize, n: u64) -> usize
    ensures value { result ≡ behind (length output.old) at (spaced (decimal n)) }
    ensures output_after { output.new ≡ written output.old at (spaced (decimal n)) }
{
    let mut space = [0u8; FIELD];
    let digits: &mut [u8] = &mut space;
    let start = field_before(digits, FIELD, n);
    let made = &digits[..];
    put_text(output, at, &made[start..])
}

// The number's digits before what stands from `end` on, the last one first.
fn number_before(line: &mut [u8], end: usize, n: u64) -> usize
    requires { (digit_limit ≤ end) × (end ≤ length line.old) }
    ensures end_bound { (end ≤ result + digit_limit) × (result ≤ end) }
    ensures line_after { drop result line.new ≡ decimal n ++ drop end line.old }
{
    let mut at = end;
    let mut rest = n;
    // By hand: only the digits that are left tell how many turns there are, so a `for` would be no plainer.
    while rest >= 10 {
        at -= 1;
        line[at] = b'0' + (rest % 10) as u8;
        rest /= 10;
    }
    at -= 1;
    line[at] = b'0' + rest as u8;
    at
}

// A space and the number.
fn field_before(line: &mut [u8], end: usize, n: u64) -> usize
    requires { (field_limit ≤ end) × (end ≤ length line.old) }
    ensures upper_bound { result ≤ end }
    ensures line_after { drop result line.new ≡ spaced (decimal n) ++ drop end line.old }
{
    let start = number_before(line, end, n) - 1;
    line[start] = b' ';
    start
}
