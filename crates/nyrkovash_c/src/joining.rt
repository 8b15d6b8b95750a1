ghost use Rattle.std.specs.Prelude.{◌≡◌};
ghost use Rattle.joiner.specs.Calls.{setup_number, setup_words, take_number, take_words, take_rooms, take_answer};

use joiner::JOINER_WORDS;
use joiner::words::ANSWER_WORDS;

// A fresh joiner for these sender IDs, with `room` bytes for each in rooms of `rooms` bytes; or 20.
#[unsafe(no_mangle)]
pub extern "C" fn nyr_setup(
    state: &mut [u32; JOINER_WORDS],
    ids: &[u16],
    room: u32,
    rooms: usize,
) -> u32
    ensures value { result ≡ setup_number ids.now room rooms }
    ensures state_after { state.new ≡ setup_words ids.now room rooms state.old }
{
    nyrkovash::nyr_setup(state, ids, room, rooms)
}

// Takes one datagram: 20 to 23, or 0 and what it was to its channel, whose record alone changes.
#[unsafe(no_mangle)]
pub extern "C" fn nyr_take(
    state: &mut [u32; JOINER_WORDS],
    rooms: &mut [u8],
    datagram: &[u8],
    answer: &mut [u64; ANSWER_WORDS],
) -> u32
    ensures value { result ≡ take_number state.old rooms.old datagram.now }
    ensures state_after { state.new ≡ take_words state.old rooms.old datagram.now }
    ensures rooms_after { rooms.new ≡ take_rooms state.old rooms.old datagram.now }
    ensures answer_after { answer.new ≡ take_answer state.old rooms.old datagram.now answer.old }
{
    nyrkovash::nyr_take(state, rooms, datagram, answer)
}
