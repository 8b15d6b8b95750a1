// The word of one leaf that is there, by a plan. `unpack_leaves` has it for leaves that are walked: here no test of the bytes is left, since
// where leaves of other codes stand around it every test makes the next jump by a code harder to foretell.
ghost use Rattle.std.specs.Prelude.{◌≡◌, ◌+◌, ◌≤◌, length};
ghost use Rattle.wire.specs.Bytes.{number};
ghost use Rattle.table.specs.Leaf.{width};
ghost use Rattle.leaf.specs.Forms.{word_at};
ghost use Rattle.unpack_leaves.specs.Leaves.{whole_word};

// The word of a leaf that is there, among leaves of other codes: of those wider than a byte by tests of its width, since where the codes are mixed
// a jump by the code is foretold wrong.
pub(crate) fn leaf_in(s: &[u8], at: usize, code: u16) -> u64
    requires { at + width code ≤ length s.now }
    ensures { result ≡ word_at code s.now at }
{
    match leaf::width(code) {
        4 => of_four(s, at, code),
        8 => u64_in(s, at),
        2 => of_two(s, at, code),
        _ => of_one(s, at, code),
    }
}

// The slice is made anew for the call, so that the other widths do without it in memory.
fn of_one(s: &[u8], at: usize, code: u16) -> u64
    ensures { result ≡ whole_word code s.now at }
{
    let len = s.len();
    unpack_leaves::word_at(&s[..len], at, code)
}

fn of_four(s: &[u8], at: usize, code: u16) -> u64
    requires { (at + 4 ≤ length s.now) × (width code ≡ 4) }
    ensures { result ≡ word_at code s.now at }
{
    if code == leaf::INT32 {
        return leaf::signed32(u32_in(s, at));
    }
    u32_in(s, at) as u64
}

fn of_two(s: &[u8], at: usize, code: u16) -> u64
    requires { (at + 2 ≤ length s.now) × (width code ≡ 2) }
    ensures { result ≡ word_at code s.now at }
{
    if code == leaf::INT16 {
        return leaf::signed16(u16_in(s, at));
    }
    u16_in(s, at) as u64
}

// Numbers that are there: in a part of just their length the compiler sees that they are, and makes one load of each.
fn u16_in(s: &[u8], at: usize) -> u16
    requires { at + 2 ≤ length s.now }
    ensures { result ≡ number 1 s.now at }
{
    wire::whole_at::<u16>(&s[at..at + 2], 0)
}

fn u32_in(s: &[u8], at: usize) -> u32
    requires { at + 4 ≤ length s.now }
    ensures { result ≡ number 2 s.now at }
{
    wire::whole_at::<u32>(&s[at..at + 4], 0)
}

fn u64_in(s: &[u8], at: usize) -> u64
    requires { at + 8 ≤ length s.now }
    ensures { result ≡ number 3 s.now at }
{
    wire::whole_at::<u64>(&s[at..at + 8], 0)
}
