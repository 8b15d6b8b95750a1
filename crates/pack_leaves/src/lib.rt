// Words written as leaves that stand one behind another, of one base code or of a list of codes: which of them the codes take, and
// their bytes. No table is read.
#![tactic(auto)]

mod bases;
mod by_codes;
mod runs;

pub use by_codes::judge_codes;
pub use runs::{store_leaves, store_run};
