// An operation looked up by its ID, by halving over the index: until a word bears the ID, no byte of the table is read.
ghost use Rattle.std.specs.Prelude.{◌≡◌, cond, ◌<◌, length, get_or};
ghost use Rattle.operations.specs.Search.{borne, sought_in, said_by, told_by, Says};

use crate::entries;

// The number of an entry that bears the ID, and where it stands, or none; where the IDs rise and the index is the table's, it is the operation
// of that ID.
pub fn find(table: &[u8], index: &[u64], count: u16, id: u32) -> Option<(u16, usize)>
    ensures { result ≡ sought_in table.now index.now count id }
{
    let (number, place) = said(index, count, id)?;
    borne(table, id, number, place)
}

// What the index says, in as many looks as the count alone asks for: no jump from one to the next hangs on the ID, so that a
// processor foretells each. The lower end is chosen by a move, and its word with it, so that the last look is at hand: the compiler
// makes a jump of a move that waits for a load in a loop, unless what is moved was loaded too. A word is read at the lower end, among
// those from half the size on: so the load waits for no sum of what hangs on the ID.
fn said(index: &[u64], count: u16, id: u32) -> Option<(u16, usize)>
    ensures { Says index.now count id result }
{
    if count == 0 {
        return None;
    }
    let bound = id as u64 * 4294967296 + 4294967295;
    let mut base: usize = 0;
    let mut size = count as usize;
    let mut word = first_word(index);
    // By hand: the size halves, and nothing counts up or down that a `for` could go over.
    while 1 < size {
        let half = size / 2;
        let middle = base + half;
        if index.len() <= middle {
            return told_in(index, id, base + size - 1);
        }
        let here = word_at(&index[half..], base);
        let is = here <= bound;
        word = chosen_word(is, here, word);
        base = chosen(is, middle, base);
        size = size - half;
    }
    told(word, id, base)
}

fn chosen(is: bool, a: usize, b: usize) -> usize
    ensures { result ≡ cond is a b }
{
    if is { a } else { b }
}

fn chosen_word(is: bool, a: u64, b: u64) -> u64
    ensures { result ≡ cond is a b }
{
    if is { a } else { b }
}

fn word_at(words: &[u64], i: usize) -> u64
    requires { i < length words.now }
    ensures { result ≡ get_or words.now i 0 }
{
    words[i]
}

fn first_word(index: &[u64]) -> u64
    ensures { result ≡ get_or index.now 0 0 }
{
    if 0 < index.len() {
        word_at(index, 0)
    } else {
        0
    }
}

// What one word says of an ID; one that is not there is 0.
fn told(word: u64, id: u32, number: usize) -> Option<(u16, usize)>
    requires { number < 65536 }
    ensures { result ≡ said_by word id number }
{
    if word / 4294967296 == id as u64 {
        Some((number as u16, (word % 4294967296) as usize))
    } else {
        None
    }
}

// The same of a word of the index, there or not.
fn told_in(index: &[u64], id: u32, number: usize) -> Option<(u16, usize)>
    requires { number < 65536 }
    ensures { result ≡ told_by index.now id number }
{
    if number < index.len() {
        return told(word_at(index, number), id, number);
    }
    told(0, id, number)
}

// The index may be anybody's: the entry that it says is found only where all its bytes are there and bear the ID. Whether they are is
// asked by a width that is chosen, and not by a jump for each kind, which would be foretold badly.
fn borne(table: &[u8], id: u32, number: u16, place: usize) -> Option<(u16, usize)>
    ensures { result ≡ borne table.now id number place }
{
    if wire::has_room(table.len(), place, 8) {
        let head = entries::head_at(table, place);
        if entries::id_of(head) == id {
            let width = entries::width_of(entries::kind_of(head));
            if wire::has_room(table.len(), place, width) {
                return Some((number, place));
            }
        }
    }
    None
}
