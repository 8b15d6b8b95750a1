ghost use Rattle.std.specs.Prelude.{◌≡◌};
ghost use Rattle.table.specs.Words.{sections_in, index_in};
ghost use Rattle.nyrkovash.specs.TableCalls.{check_number, check_answer, find_number, find_answer};

use nyrkovash::FOUND_WORDS;
use table::SECTIONS_WORDS;

// Checks a table: 30 to 33, or 0, its sections and the index of its operations.
#[unsafe(no_mangle)]
pub extern "C" fn nyr_check_table(table: &[u8], sections: &mut [u64; SECTIONS_WORDS]) -> u32
    ensures value { result ≡ check_number table.now }
    ensures sections_after { sections.new ≡ check_answer table.now sections.old }
{
    nyrkovash::nyr_check_table(table, sections)
}

// Looks an operation up: 30 for sections that do not lie in the table, or 0 and what was found.
#[unsafe(no_mangle)]
pub extern "C" fn nyr_find(
    table: &[u8],
    sections: &[u64; SECTIONS_WORDS],
    id: u32,
    answer: &mut [u64; FOUND_WORDS],
) -> u32
    ensures value { result ≡ find_number table.now (sections_in sections.now) }
    ensures answer_after { answer.new
        ≡ find_answer table.now (sections_in sections.now) (index_in sections.now) id answer.old }
{
    nyrkovash::nyr_find(table, sections, id, answer)
}
