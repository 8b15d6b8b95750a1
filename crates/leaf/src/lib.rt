// The 13 base codes: how wide a leaf is on the wire and which words it takes (`codes`), its word and its bytes (`words`).
#![tactic(auto)]

mod codes;
mod words;

pub use codes::{
    BOOLEAN8, BYTE, CHAR8, DOUBLE64, FLOAT32, INT8, INT16, INT32, INT64, Range, UINT8, UINT16,
    UINT32, UINT64, allowed, measure, range_of, width,
};
pub use words::{among_at, put, signed8, signed16, signed32, takes, truth};
