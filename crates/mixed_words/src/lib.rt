// The platform call among partners of both issues (02, request 8), with its state, the partners' services and what was heard in words
// that the caller keeps: a message noted and answered by a table's bytes (`on_table`) or by the sections that a check gave
// (`on_sections`), a request sent in its target's issue (`sending`), and what is known of a partner's service (`asking`).
#![tactic(auto)]

mod asking;
mod from_bytes;
mod heard_words;
mod on_sections;
mod on_table;
mod sending;
mod stamps;
mod telling;

pub use asking::service;
pub use heard_words::ANY_HEARD_WORDS;
pub use on_sections::receive_in;
pub use on_table::receive;
pub use sending::send;
pub use stamps::{PARTNERS_WORDS, STAMP_NUMBERS};
