// 02, request 13: at load, the plans of a table's types are laid out in lent words, and payloads are unpacked and packed by them.
#![tactic(auto)]

mod front;
mod leaves;
mod runs;

pub use front::lay;
pub use leaves::length_in;
