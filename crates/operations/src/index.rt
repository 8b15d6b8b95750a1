// The index of the operations: a word for each, its ID and its place.
ghost use Rattle.std.specs.Prelude.{◌≡◌, set};
ghost use Rattle.operations.specs.Search.{indexed};

use crate::entries;

// Lays the index of so many operations, as far as the words go; the words behind them stay.
pub fn lay_index(table: &[u8], at: u16, count: u16, index: &mut [u64])
    ensures { index.new ≡ indexed table.now at count index.old }
{
    let mut place = at as usize;
    for i in 0..count {
        let head = entries::head_at(table, place);
        let word = head / 4294967296 * 4294967296 + place as u64;
        put_word(index, i as usize, word);
        place += entries::width_of(entries::kind_of(head));
    }
}

// A word past the end is not put.
fn put_word(words: &mut [u64], i: usize, word: u64)
    ensures { words.new ≡ set words.old i word }
{
    if i < words.len() {
        words[i] = word;
    }
}
