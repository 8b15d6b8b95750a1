// The platform call with its state and what was heard in words that the caller keeps: a platform fresh and asked, a message noted
// and answered by a table's bytes (`on_table`) or by the sections that a check gave (`on_sections`), a request sent (`sending`), and
// the requests that are pending (`pending_words`).
#![tactic(auto)]

mod heard_words;
mod on_sections;
mod on_table;
mod pending_words;
mod sending;
mod standing_words;

pub use heard_words::{
    HEARD_WORDS, NOT_IN_TABLE, NOT_VERSIONED_DATA, OPERATION, PULL_OF_ALL, PULL_OF_ONE, REQUEST,
    RESPONSE, STATUS, UNKNOWN_OPERATION,
};
pub use on_sections::{NOTHING, receive_in};
pub use on_table::receive;
pub use pending_words::{AWAITED, AWAITED_WORDS, awaited, cancel};
pub use sending::{SENT_WORDS, send};
pub use standing_words::{
    PENDING_AT, PLATFORM_WORDS, fresh, how_many_up, is_up, keep_standing, standing_in,
};
