// One leaf of a base code.
ghost use Rattle.std.specs.Prelude.{◌≡◌, ◌+◌, ◌≤◌, ◌<◌, length};
ghost use Rattle.wire.specs.Bytes.{written};
ghost use Rattle.table.specs.Leaf.{width};
ghost use Rattle.leaf.specs.Forms.{form_of};

// Stores the bytes of a word, where there is room for them. Over no room the first test is all.
pub(crate) fn put_base(out: &mut [u8], to: usize, code: u16, word: u64)
    ensures { out.new ≡ written out.old to (form_of code word) }
{
    if to < out.len() {
        if leaf::width(code) <= out.len() - to {
            set(out, to, code, word);
        }
    }
}

// Writes the bytes of a word for which there is room: each number into a part that is as long as it is, so that no test is left
// of wire's own.
pub(crate) fn set(out: &mut [u8], at: usize, code: u16, word: u64)
    requires { at + width code ≤ length out.old }
    ensures { out.new ≡ written out.old at (form_of code word) }
{
    let width = leaf::width(code);
    match width {
        1 => out[at] = (word % 256) as u8,
        2 => wire::put_number::<u16>(&mut out[at..at + 2], 0, (word % 65536) as u16),
        4 => wire::put_number::<u32>(&mut out[at..at + 4], 0, (word % 4294967296) as u32),
        8 => wire::put_number::<u64>(&mut out[at..at + 8], 0, word),
        _ => {}
    }
}
