// The library as programs in C, C++, Ada and Rust link it (include/nyrkovash.h): a slice is a pointer and a length, and what has a
// fixed size an array behind a reference. A call answers 0 or 01's number, but for the three that ask states or a service and the one that asks
// which library this is; where it is refused all that was lent is as it was, but for the place that 40 to 43 leave.
#![tactic(auto)]

mod asking;
mod issues;
mod joining;
mod messages;
mod partnered;
mod payloads;
mod plans;
mod platforms;
mod reading;
mod tables;
mod telling;
mod version;

pub use asking::{nyr_cancel, nyr_pending, nyr_send, nyr_send_mixed};
pub use issues::{ANY_READING_WORDS, nyr_partners_set, nyr_read_mixed, nyr_write_3};
pub use joining::{nyr_setup, nyr_take};
pub use messages::{nyr_cut, nyr_pieces, nyr_write};
pub use partnered::{nyr_receive_mixed, nyr_receive_mixed_in, nyr_service};
pub use payloads::{WALKED_WORDS, nyr_pack, nyr_pack_in, nyr_unpack, nyr_unpack_in};
pub use plans::{nyr_pack_by, nyr_plans, nyr_plans_length, nyr_unpack_by};
pub use platforms::{nyr_how_many_up, nyr_is_up, nyr_receive, nyr_receive_in, nyr_start};
pub use reading::{READING_WORDS, nyr_read};
pub use tables::{FOUND, FOUND_WORDS, nyr_check_table, nyr_find};
pub use version::{LIBRARY_VERSION, nyr_library_version};
