// Numbers in the byte order of the wire: the most significant byte comes first. The compiler makes one load, or one store, and one swap of
// each, and vectors of loops over them.
ghost use Rattle.std.specs.Prelude.{◌≡◌, ◌^◌, ◌≤◌, ℕ};
ghost use Rattle.std.proofs.Common.{rules};
ghost use Rattle.wire.specs.Bytes.{number, bytes, padded};
ghost use Rattle.wire.specs.LowFirst.{swapped};

// The bytes of the widest number.
pub(crate) const WIDEST: usize = 8;

// A number of 2 ^ exponent bytes; `value` is the number that it stands for.
pub trait Number: Copy {
    ghost exponent: { ℕ };

    ghost value: { Self → ℕ };

    // How many bytes it has.
    fn width() -> usize
        ensures { result ≡ 2 ^ exponent };

    // The number in the first of the bytes.
    fn of_bytes(bytes: [u8; WIDEST]) -> Self
        ensures { value result ≡ number exponent bytes 0 };

    // Its bytes, with zeros behind them.
    fn to_bytes(self) -> [u8; WIDEST]
        ensures { result ≡ padded (bytes exponent (value self)) };

    // The number at `at` by halves, each of which is there, or not, or in part: for one that may end past the end.
    fn by_halves(s: &[u8], at: usize) -> Self
        ensures { value result ≡ number exponent s.now at };

    ghost widest: { 2 ^ exponent ≤ 8 };

    // What stands for one number is one value: so what a contract says by `value` has one answer.
    ghost apart: { (x y : Self) → value x ≡ value y → x ≡ y };
}

impl Number for u8 {
    ghost exponent = { 0 };

    ghost value = { λ x. x };

    ghost widest = { Prim.search rules };

    ghost apart = { λ x y e. e };

    fn width() -> usize {
        1
    }

    fn of_bytes(bytes: [u8; WIDEST]) -> u8 {
        bytes[0]
    }

    fn to_bytes(self) -> [u8; WIDEST] {
        [self, 0, 0, 0, 0, 0, 0, 0]
    }

    // A byte has no halves.
    fn by_halves(s: &[u8], at: usize) -> u8 {
        if at < s.len() { s[at] } else { 0 }
    }
}

impl Number for u16 {
    ghost exponent = { 1 };

    ghost value = { λ x. x };

    ghost widest = { Prim.search rules };

    ghost apart = { λ x y e. e };

    fn width() -> usize {
        2
    }

    fn of_bytes(bytes: [u8; WIDEST]) -> u16 {
        let [a, b, ..] = bytes;
        u16::from_be_bytes([a, b])
    }

    fn to_bytes(self) -> [u8; WIDEST] {
        let [a, b] = self.to_be_bytes();
        [a, b, 0, 0, 0, 0, 0, 0]
    }

    fn by_halves(s: &[u8], at: usize) -> u16 {
        if at < s.len() {
            u16::from(s[at]) * 256 + u16::from(u8::by_halves(s, at + 1))
        } else {
            0
        }
    }
}

impl Number for u32 {
    ghost exponent = { 2 };

    ghost value = { λ x. x };

    ghost widest = { Prim.search rules };

    ghost apart = { λ x y e. e };

    fn width() -> usize {
        4
    }

    fn of_bytes(bytes: [u8; WIDEST]) -> u32 {
        let [a, b, c, d, ..] = bytes;
        u32::from_be_bytes([a, b, c, d])
    }

    fn to_bytes(self) -> [u8; WIDEST] {
        let [a, b, c, d] = self.to_be_bytes();
        [a, b, c, d, 0, 0, 0, 0]
    }

    fn by_halves(s: &[u8], at: usize) -> u32 {
        if at < s.len() {
            u32::from(u16::by_halves(s, at)) * 65536 + u32::from(u16::by_halves(s, at + 2))
        } else {
            0
        }
    }
}

impl Number for u64 {
    ghost exponent = { 3 };

    ghost value = { λ x. x };

    ghost widest = { Prim.search rules };

    ghost apart = { λ x y e. e };

    fn width() -> usize {
        8
    }

    fn of_bytes(bytes: [u8; WIDEST]) -> u64 {
        u64::from_be_bytes(bytes)
    }

    fn to_bytes(self) -> [u8; WIDEST] {
        self.to_be_bytes()
    }

    // It stands by itself: eight bytes are too many for whoever reads a number to be laid out where it is called.
    #[cold]
    #[inline(never)]
    fn by_halves(s: &[u8], at: usize) -> u64 {
        if at < s.len() {
            u64::from(u32::by_halves(s, at)) * 4294967296 + u64::from(u32::by_halves(s, at + 4))
        } else {
            0
        }
    }
}

// The number with its bytes in the other order.
pub fn swap64(x: u64) -> u64
    ensures { result ≡ swapped 3 x }
{
    x.swap_bytes()
}
