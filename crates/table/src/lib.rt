// The bytes of a type table (01, "The type table"): where its four sections lie (`bounds`, and in words `stored`), where
// their entries stand and what they say (`layout`, `entries`), and the rule of one entry by itself (`rules`). What stands in the
// last section is told by `operations`, and a table is judged as a whole by `types`.
#![tactic(auto)]

mod bounds;
pub mod entries;
pub mod layout;
mod rules;
mod stored;

pub use bounds::{MOST_MEMBERS, MOST_OPERATIONS, MOST_TYPES, MOST_VALUES, read, within};
pub use rules::fields_ok;
pub use stored::{BOUNDS_WORDS, SECTIONS_WORDS, WORD_LIMIT, sections_in};

// 01, Numbers given back.
pub const CUT_SHORT: u32 = 30;

// Kinds of types.
pub const BASE: u16 = 0;

pub const ENUM: u16 = 1;

pub const RECORD: u16 = 2;

pub const FIXED: u16 = 3;

// A section of a table: where its first entry stands, and how many there are.
#[derive(Clone, Copy)]
pub struct Section {
    pub at: u16,
    pub count: u16,
}

// The sections of a table, in reading order.
#[derive(Clone, Copy)]
pub struct Sections {
    pub types: Section,
    pub members: Section,
    pub values: Section,
    pub operations: Section,
}

// A type's entry.
#[derive(Clone, Copy)]
pub struct Entry {
    pub kind: u16,
    pub of: u16,
    pub first: u16,
    pub count: u16,
}
