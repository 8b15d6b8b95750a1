// The start of a recording: its sizes, then its sender IDs. It is read a block at a time: a call is handed what has come so far.
ghost use Rattle.std.specs.Prelude.{◌≡◌, ◌≤◌, length, take};
ghost use Rattle.channel.specs.Record.{channel_limit};
ghost use Rattle.recording.specs.Opening.{opened_in, good_start, ids_in, ready_in};

use joiner::Joiner;
use refusal::Refusal;

// The bytes of count and R.
const SIZES: usize = 6;

// All rooms together.
const ROOMS: usize = 65536;

// A recording that is open: its datagrams start at `start`, and its rooms are `rooms` bytes together.
#[derive(Clone, Copy)]
pub struct Opened {
    pub joiner: Joiner,
    pub start: usize,
    pub rooms: usize,
}

// The start of a recording of which `input` is what has come so far; none as long as more bytes are needed.
pub fn open(input: &[u8]) -> Result<Option<Opened>, Refusal>
    ensures { result ≡ opened_in input.now }
{
    if input.len() < SIZES {
        return Ok(None);
    }
    let count = wire::number_at::<u16>(input, 0) as usize;
    let room = wire::number_at::<u32>(input, 2);
    if is_good_start(count, room) {
        if input.len() < SIZES + 2 * count {
            return Ok(None);
        }
        return set_up(input, count, room);
    }
    Err(Refusal::NoJoiner)
}

fn is_good_start(count: usize, room: u32) -> bool
    ensures { result ≡ good_start count room }
{
    if (1 <= count) & (count <= channel::CHANNELS) {
        if (joiner::SMALLEST_ROOM <= room) & (room <= channel::LARGEST_ROOM) {
            return channel::room_start(room, count as u32) <= ROOMS;
        }
        return false;
    }
    false
}

#[tactic(auto, unfolding(crate::specs::Opening::opened_by))]
fn set_up(input: &[u8], count: usize, room: u32) -> Result<Option<Opened>, Refusal>
    requires { count ≤ channel_limit }
    ensures { result ≡ ready_in input.now count room }
{
    let ids = read_ids(input, count);
    let rooms = channel::room_start(room, count as u32);
    let joiner = joiner::setup(&ids[..count], room, rooms)?;
    Ok(Some(Opened {
        joiner,
        start: SIZES + 2 * count,
        rooms,
    }))
}

// The first `count` IDs. What follows them is of no account.
fn read_ids(input: &[u8], count: usize) -> [u16; 32]
    requires { count ≤ channel_limit }
    ensures { (length result ≡ channel_limit) × (take count result ≡ ids_in input.now count) }
{
    let mut ids = [0u16; 32];
    for i in 0..count {
        ids[i] = wire::number_at::<u16>(input, SIZES + 2 * i);
    }
    ids
}
