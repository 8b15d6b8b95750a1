// A joiner into its words.
ghost use Rattle.std.specs.Prelude.{◌≡◌};
ghost use Rattle.wire.specs.Bytes.{written};
ghost use Rattle.joiner.specs.JoinerWords.{record_at, record_words, words_of};

use crate::Joiner;
use crate::looking::{FIRST_RECORD, JOINER_WORDS, RECORD_WORDS};
use channel::{CHANNELS, Channel};

// A joiner of more channels than there can be is stored as one of none, which every look finds bad.
pub(crate) fn words_of(joiner: Joiner) -> [u32; JOINER_WORDS]
    ensures { result ≡ words_of joiner }
{
    let mut words = [0; JOINER_WORDS];
    let count = joiner.count;
    if count <= CHANNELS {
        words[0] = count as u32;
        words[1] = joiner.room;
        for (i, channel) in joiner.channels.iter().enumerate() {
            put_record(&mut words, i, *channel);
        }
        return words;
    }
    words
}

// The record of channel `at`; nothing where there can be no such channel.
pub(crate) fn put_record(state: &mut [u32; JOINER_WORDS], at: usize, channel: Channel)
    ensures { state.new ≡ written state.old (record_at at) (record_words channel) }
{
    let words: &mut [u32] = state;
    if at < CHANNELS {
        let start = FIRST_RECORD + RECORD_WORDS * at;
        words[start] = channel.sender as u32;
        words[start + 1] = u32::from(channel.seen);
        words[start + 2] = channel.last;
        words[start + 3] = channel.held;
    }
}
