// A joiner's set-up: its channels made anew, and judged as those of any joiner are.
ghost use Rattle.std.specs.Prelude.{◌≡◌, ◌≤◌, length};
ghost use Rattle.channel.specs.Record.{channel_limit, new_channel};
ghost use Rattle.joiner.specs.Setup.{good, fresh_of, setup_of};

use crate::{Joiner, in_words, looking};
use channel::{CHANNELS, Channel};
use refusal::Refusal;

// A fresh joiner for these sender IDs, over a buffer of `buffer` bytes with `room` bytes for each channel; or 20.
pub fn setup(ids: &[u16], room: u32, buffer: usize) -> Result<Joiner, Refusal>
    ensures { result ≡ setup_of ids.now room buffer }
{
    if ids.len() <= CHANNELS {
        let joiner = fresh(ids, room);
        if is_good(joiner, buffer) {
            return Ok(joiner);
        }
        return Err(Refusal::NoJoiner);
    }
    Err(Refusal::NoJoiner)
}

fn is_good(joiner: Joiner, buffer: usize) -> bool
    ensures { result ≡ good joiner buffer }
{
    let words = in_words::words_of(joiner);
    looking::is_good(&words, buffer)
}

fn fresh(ids: &[u16], room: u32) -> Joiner
    requires { length ids.now ≤ channel_limit }
    ensures { result ≡ fresh_of ids.now room }
{
    let mut channels = [new_channel(0); CHANNELS];
    for (i, id) in ids.iter().enumerate() {
        channels[i] = new_channel(*id);
    }
    Joiner {
        channels,
        count: ids.len(),
        room,
    }
}

fn new_channel(sender: u16) -> Channel
    ensures { result ≡ new_channel sender }
{
    Channel {
        sender,
        seen: false,
        last: 0,
        held: 0,
    }
}
