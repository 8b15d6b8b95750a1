// A table checked and its operations looked up, with the sections and the answers in lent words: as the C interface has them.
ghost use Rattle.std.specs.Prelude.{◌≡◌, ◌++◌, ◌&&◌, ◌+◌, ◌≤◌, length};
ghost use Rattle.table.specs.Layout.{lies_in, within};
ghost use Rattle.table.specs.Words.{bounds_words, is_section, section_in, sections_in, index_in, words_of};
ghost use Rattle.nyrkovash.specs.TableCalls.{sections_words, check_number, check_answer, find_number, find_answer};

use table::layout::{MEMBER_WIDTH, OPERATION_WIDTH, TYPE_WIDTH, VALUE_WIDTH};
use table::{
    BOUNDS_WORDS, MOST_MEMBERS, MOST_OPERATIONS, MOST_TYPES, MOST_VALUES, SECTIONS_WORDS, Sections,
    WORD_LIMIT,
};

// How many words an operation that was looked up is.
pub const FOUND_WORDS: usize = 4;

// Where an operation was found.
pub const FOUND: u64 = 1;

// Checks a table: 30 to 33, or 0, its sections and the index of its operations.
#[unsafe(no_mangle)]
pub extern "C" fn nyr_check_table(table: &[u8], sections: &mut [u64; SECTIONS_WORDS]) -> u32
    ensures value { result ≡ check_number table.now }
    ensures sections_after { sections.new ≡ check_answer table.now sections.old }
{
    let words: &mut [u64] = sections;
    match types::check(table) {
        Err(refusal) => refusal.number(),
        Ok(s) => {
            put_sections(table, words, s);
            0
        }
    }
}

// Looks an operation up: 30 for sections that do not lie in the table, or 0 and what was found.
#[unsafe(no_mangle)]
pub extern "C" fn nyr_find(
    table: &[u8],
    sections: &[u64; SECTIONS_WORDS],
    id: u32,
    answer: &mut [u64; FOUND_WORDS],
) -> u32
    ensures value { result ≡ find_number table.now (sections_in sections.now) }
    ensures answer_after { answer.new
        ≡ find_answer table.now (sections_in sections.now) (index_in sections.now) id answer.old }
{
    let words: &[u64] = sections;
    if lie_in(table, words) {
        let count = words[7] as u16;
        match operations::find(table, &words[BOUNDS_WORDS..], count, id) {
            Some((_, place)) => {
                let operation = operations::operation_at(table, place);
                *answer = [
                    FOUND,
                    operation.kind as u64,
                    operation.carries as u64,
                    operation.responds as u64,
                ];
            }
            None => {
                *answer = [0, 0, 0, 0];
            }
        }
        0
    } else {
        table::CUT_SHORT
    }
}

// `table::within` of `table::sections_in`, asked of the words as they lie: a look-up wants no more of the sections than how many
// operations there are, so that none is made of its words and kept.
fn lie_in(table: &[u8], words: &[u64]) -> bool
    requires { bounds_words ≤ length words.now }
    ensures { result ≡ within table.now (sections_in words.now) }
{
    if lies_in(words, 0, TYPE_WIDTH, MOST_TYPES, table.len()) {
        if lies_in(words, 2, MEMBER_WIDTH, MOST_MEMBERS, table.len()) {
            if lies_in(words, 4, VALUE_WIDTH, MOST_VALUES, table.len()) {
                lies_in(words, 6, OPERATION_WIDTH, MOST_OPERATIONS, table.len())
            } else {
                false
            }
        } else {
            false
        }
    } else {
        false
    }
}

// Whether the two words at k are a section that lies within so many bytes. Place and end are asked by one `&`, of which the compiler
// makes two jumps; of an `if` for each it makes flags that are put together. The remainder is the place itself where that is asked
// for, and with it the sum never wraps.
fn lies_in(words: &[u64], k: usize, width: u16, most: u16, len: usize) -> bool
    requires { k + 2 ≤ length words.now }
    ensures { result ≡ (is_section words.now k && lies_in width most len (section_in words.now k)) }
{
    let at = words[k];
    let count = words[k + 1];
    if (most as u64) < count {
        return false;
    }
    (at < WORD_LIMIT) & (at % WORD_LIMIT + width as u64 * count <= len as u64)
}

fn put_sections(table: &[u8], words: &mut [u64], s: Sections)
    requires { bounds_words ≤ length words.old }
    ensures { words.new ≡ sections_words table.now words.old s }
{
    put_bounds(words, s);
    operations::lay_index(
        table,
        s.operations.at,
        s.operations.count,
        &mut words[BOUNDS_WORDS..],
    );
}

fn put_bounds(words: &mut [u64], s: Sections)
    requires { bounds_words ≤ length words.old }
    ensures { words.new ≡ words_of s ++ index_in words.old }
{
    words[0] = s.types.at as u64;
    words[1] = s.types.count as u64;
    words[2] = s.members.at as u64;
    words[3] = s.members.count as u64;
    words[4] = s.values.at as u64;
    words[5] = s.values.count as u64;
    words[6] = s.operations.at as u64;
    words[7] = s.operations.count as u64;
}
