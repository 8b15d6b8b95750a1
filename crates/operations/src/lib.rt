// Section four of a type table (01, "The type table"; 02, 1): operations, whose entries have 8 bytes or 10. Where they stand and
// what they say (`entries`), their rules (`rules`), and an operation looked up by its ID, over an index in words that the caller
// lends (`index`, `lookup`). Every call answers for any bytes, any place and any count: a byte or a word past the end reads as 0.
#![tactic(auto)]

mod entries;
mod index;
mod lookup;
mod rules;

pub use entries::{end, kind_at, operation_at, width_at};
pub use index::lay_index;
pub use lookup::find;
pub use rules::{are_good, has_data};

// Kinds of operations: those of 01, "The type table", and the requests of 02, 1, that we send and that we serve.
pub const EVENT: u16 = 0;

pub const VERSIONED_DATA: u16 = 1;

pub const REQUEST_SENT: u16 = 2;

pub const REQUEST_SERVED: u16 = 3;

// An operation's entry; `carries` is its type and `responds` the type of its response, or 0xFFFF for
// none.
#[derive(Clone, Copy)]
pub struct Operation {
    pub id: u32,
    pub kind: u16,
    pub carries: u16,
    pub responds: u16,
}
