// Leaves of a payload that stand one behind another, of one base code, of an enum or of a list of codes: whether they are there and
// allowed, and their words. No table is walked: of a table only an enum's values are read.
#![tactic(auto)]

mod bases;
mod by_codes;
mod enums;
mod runs;

pub use bases::word_at;
pub use by_codes::{judge_codes, store_codes};
pub use enums::are_among;
pub use runs::{judge_run, store_run};
