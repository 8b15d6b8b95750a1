// The sections of a table in the words that a caller keeps: the first byte and the count of each, and behind them the index of its
// operations (`operations::lay_index`).
ghost use Rattle.std.specs.Prelude.{◌≡◌, true, ◌<◌};
ghost use Rattle.table.specs.Words.{bounds_words, is_section, section_in, are_sections, sections_in};

use crate::{Section, Sections};

// How many words say where the sections lie.
pub const BOUNDS_WORDS: usize = 8;

// And with the index of as many operations as a table can have.
pub const SECTIONS_WORDS: usize = 1032;

// One more than the largest number of a section.
pub const WORD_LIMIT: u64 = 65536;

// Where the section of each name starts in the words.
const TYPES: usize = 0;

const MEMBERS: usize = 2;

const VALUES: usize = 4;

const OPERATIONS: usize = 6;

// No table has so many entries.
const NOWHERE: Section = Section {
    at: 0,
    count: 0xFFFF,
};

// The sections that the words are; words that are no sections stand for some that lie in no table.
pub fn sections_in(words: &[u64]) -> Sections
    ensures { result ≡ sections_in words.now }
{
    if are_sections(words) {
        let types = section_in(words, TYPES);
        let members = section_in(words, MEMBERS);
        let values = section_in(words, VALUES);
        let operations = section_in(words, OPERATIONS);
        Sections {
            types,
            members,
            values,
            operations,
        }
    } else {
        Sections {
            types: NOWHERE,
            members: NOWHERE,
            values: NOWHERE,
            operations: NOWHERE,
        }
    }
}

fn are_sections(words: &[u64]) -> bool
    ensures { result ≡ are_sections words.now }
{
    is_section(words, TYPES)
        & (is_section(words, MEMBERS) & (is_section(words, VALUES) & is_section(words, OPERATIONS)))
}

fn is_section(words: &[u64], at: usize) -> bool
    requires { at < bounds_words }
    ensures { result ≡ is_section words.now at }
{
    (wire::word_at(words, at) < WORD_LIMIT) & (wire::word_at(words, at + 1) < WORD_LIMIT)
}

fn section_in(words: &[u64], at: usize) -> Section
    requires at_lt_bounds_words { at < bounds_words }
    requires at_value { is_section words.now at ≡ true }
    ensures { result ≡ section_in words.now at }
{
    Section {
        at: wire::word_at(words, at) as u16,
        count: wire::word_at(words, at + 1) as u16,
    }
}
