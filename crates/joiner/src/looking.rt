// A joiner's channels in words: whether they are good, and which of them bears a sender ID. The one look at a joiner, by value
// too.
ghost use Rattle.std.specs.Prelude.{◌≡◌};
ghost use Rattle.joiner.specs.Setup.{good_sizes, good, found_of};
ghost use Rattle.joiner.specs.JoinerWords.{joiner_in};

use crate::records;
use channel::{CHANNELS, Channel, LARGEST_ROOM};
use refusal::Refusal;

// How small a channel's room can be.
pub const SMALLEST_ROOM: u32 = 24;

// The words of a record behind one another, and where the first record starts.
pub const RECORD_WORDS: usize = 4;

pub const FIRST_RECORD: usize = 2;

// How many words a joiner is.
pub const JOINER_WORDS: usize = FIRST_RECORD + RECORD_WORDS * CHANNELS;

// Whether the joiner in the words is good for rooms of so many bytes, and which channel bears the sender ID, if one does.
pub(crate) fn look(
    state: &[u32; JOINER_WORDS],
    rooms: usize,
    sender: u16,
) -> Result<Option<(usize, Channel)>, Refusal>
    ensures { result ≡ found_of (joiner_in state.now) rooms sender }
{
    let words: &[u32] = state;
    let count = words[0] as usize;
    if has_good_sizes(count, words[1], rooms) {
        if records::are_good(words) {
            return Ok(records::found(words, records::find(words, sender as u32)));
        }
        return Err(Refusal::NoJoiner);
    }
    Err(Refusal::NoJoiner)
}

// The same verdict for a set-up, whose IDs need not rise.
pub(crate) fn is_good(state: &[u32; JOINER_WORDS], rooms: usize) -> bool
    ensures { result ≡ good (joiner_in state.now) rooms }
{
    let words: &[u32] = state;
    let count = words[0] as usize;
    if has_good_sizes(count, words[1], rooms) {
        return records::are_each_good(words);
    }
    false
}

// How many channels there are, how large a room is, and whether the buffer is just their rooms.
fn has_good_sizes(count: usize, room: u32, buffer: usize) -> bool
    ensures { result ≡ good_sizes count room buffer }
{
    if (1 <= count) & (count <= CHANNELS) {
        if (SMALLEST_ROOM <= room) & (room <= LARGEST_ROOM) {
            return buffer == channel::room_start(room, count as u32);
        }
        return false;
    }
    false
}
