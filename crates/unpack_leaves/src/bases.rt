// A leaf of a base code whose bytes are there.
ghost use Rattle.std.specs.Prelude.{◌≡◌, ◌+◌, ◌≤◌, length};
ghost use Rattle.wire.specs.Bytes.{number};
ghost use Rattle.table.specs.Leaf.{width, allowed};
ghost use Rattle.leaf.specs.Forms.{word_at};
ghost use Rattle.unpack_leaves.specs.Leaves.{is_there, whole_word};

// Whether a leaf of the base code, which has so many bytes, is there, and its word is allowed.
pub(crate) fn is_there(payload: &[u8], from: usize, code: u16, bytes: usize) -> bool
    requires { (from ≤ length payload.now) × (bytes ≡ width code) }
    ensures { result ≡ is_there payload.now code from }
{
    if payload.len() - from < bytes {
        return false;
    }
    is_allowed(payload, from, code)
}

// Whether the word of a leaf that is there is allowed: of most codes every word is. char8, whose code stands among theirs, is
// asked for first, so that one comparison tells the others.
fn is_allowed(payload: &[u8], from: usize, code: u16) -> bool
    requires { from + width code ≤ length payload.now }
    ensures { result ≡ allowed code (word_at code payload.now from) }
{
    if code == leaf::CHAR8 {
        return leaf::allowed(leaf::CHAR8, u8_in(payload, from) as u64);
    }
    if leaf::range_of(code).every {
        return true;
    }
    leaf::allowed(code, word_in(payload, from, code))
}

// The word of a leaf, or 0 where not all its bytes are there.
pub fn word_at(s: &[u8], at: usize, code: u16) -> u64
    ensures { result ≡ whole_word code s.now at }
{
    if wire::has_room(s.len(), at, leaf::width(code)) {
        word_in(s, at, code)
    } else {
        0
    }
}

// The word of a leaf that is there.
pub(crate) fn word_in(s: &[u8], at: usize, code: u16) -> u64
    requires { at + width code ≤ length s.now }
    ensures { result ≡ word_at code s.now at }
{
    match code {
        leaf::BOOLEAN8 => leaf::truth(u8_in(s, at)),
        leaf::INT8 => leaf::signed8(u8_in(s, at)),
        leaf::CHAR8 => u8_in(s, at) as u64,
        leaf::INT16 => leaf::signed16(u16_in(s, at)),
        leaf::INT32 => leaf::signed32(u32_in(s, at)),
        leaf::INT64 => u64_in(s, at),
        leaf::UINT8 => u8_in(s, at) as u64,
        leaf::BYTE => u8_in(s, at) as u64,
        leaf::UINT16 => u16_in(s, at) as u64,
        leaf::UINT32 => u32_in(s, at) as u64,
        leaf::UINT64 => u64_in(s, at),
        leaf::FLOAT32 => u32_in(s, at) as u64,
        leaf::DOUBLE64 => u64_in(s, at),
        _ => 0,
    }
}

fn u8_in(s: &[u8], at: usize) -> u8
    requires { at + 1 ≤ length s.now }
    ensures { result ≡ number 0 s.now at }
{
    s[at]
}

// Numbers that are there: in a part of just their length the compiler sees that they are, and makes one load of each.
fn u16_in(s: &[u8], at: usize) -> u16
    requires { at + 2 ≤ length s.now }
    ensures { result ≡ number 1 s.now at }
{
    wire::whole_at::<u16>(&s[at..at + 2], 0)
}

fn u32_in(s: &[u8], at: usize) -> u32
    requires { at + 4 ≤ length s.now }
    ensures { result ≡ number 2 s.now at }
{
    wire::whole_at::<u32>(&s[at..at + 4], 0)
}

fn u64_in(s: &[u8], at: usize) -> u64
    requires { at + 8 ≤ length s.now }
    ensures { result ≡ number 3 s.now at }
{
    wire::whole_at::<u64>(&s[at..at + 8], 0)
}
