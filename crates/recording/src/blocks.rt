// Blocks of what comes in pieces: what was not used yet of a buffer is moved to its front, so that more can be read behind
// it.
ghost use Rattle.std.specs.Prelude.{◌≡◌, length};
ghost use Rattle.wire.specs.Bytes.{over, part};

// Moves the `count` bytes from `from` on to the front, and answers how many they are: none where they do not all lie in
// the buffer.
pub fn keep(buffer: &mut [u8], from: usize, count: usize) -> usize
    ensures value { result ≡ length (part buffer.old from count) }
    ensures buffer_after { buffer.new ≡ over buffer.old 0 (part buffer.old from count) }
{
    if wire::has_room(buffer.len(), from, count) {
        buffer.copy_within(from..from + count, 0);
        return count;
    }
    0
}
