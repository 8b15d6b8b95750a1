// The static library that programs in C, C++, Ada and Rust link: each exported call is `nyrkovash`'s of the same name, with its clauses. What a
// call does stands there; here it only gets its name in the archive, since a crate is a library or a static library, and not both.
#![tactic(auto)]

mod asking;
mod issues;
mod joining;
mod messages;
mod partnered;
mod payloads;
mod plans;
mod platforms;
mod reading;
mod tables;
mod version;
