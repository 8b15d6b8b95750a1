// The leaves of one enum, one behind another: whether the word of each is among its values.
ghost use Rattle.std.specs.Prelude.{◌≡◌, ◌+◌, ◌*◌, ◌≤◌, length};
ghost use Rattle.wire.specs.All.{all_below};
ghost use Rattle.table.specs.Leaf.{width};
ghost use Rattle.unpack_leaves.specs.OneCode.{is_among, run_among};

use crate::bases;

// Whether so many leaves are all there, and each is one of the `count` values that stand at `at` in the table.
pub fn are_among(
    table: &[u8],
    at: u32,
    count: u16,
    payload: &[u8],
    from: usize,
    code: u16,
    many: u32,
) -> bool
    ensures { result ≡ run_among table.now at count payload.now code from many }
{
    let all = many as usize;
    if wire::has_room(payload.len(), from, all * leaf::width(code)) {
        all_among(table, at, count, payload, from, code, all)
    } else {
        false
    }
}

// A call for each code but the widest, so that the compiler makes a loop for each, with no jump by the code inside.
fn all_among(
    table: &[u8],
    at: u32,
    count: u16,
    payload: &[u8],
    from: usize,
    code: u16,
    many: usize,
) -> bool
    requires { from + many * width code ≤ length payload.now }
    ensures { result ≡ all_below (is_among table.now at count payload.now code from) many }
{
    match code {
        leaf::INT8 => each_among(table, at, count, payload, from, leaf::INT8, many),
        leaf::INT16 => each_among(table, at, count, payload, from, leaf::INT16, many),
        leaf::INT32 => each_among(table, at, count, payload, from, leaf::INT32, many),
        leaf::UINT8 => each_among(table, at, count, payload, from, leaf::UINT8, many),
        leaf::UINT16 => each_among(table, at, count, payload, from, leaf::UINT16, many),
        leaf::UINT32 => each_among(table, at, count, payload, from, leaf::UINT32, many),
        _ => each_among(table, at, count, payload, from, code, many),
    }
}

fn each_among(
    table: &[u8],
    at: u32,
    count: u16,
    payload: &[u8],
    from: usize,
    code: u16,
    many: usize,
) -> bool
    requires { from + many * width code ≤ length payload.now }
    ensures { result ≡ all_below (is_among table.now at count payload.now code from) many }
{
    let width = leaf::width(code);
    for k in 0..many {
        let word = bases::word_in(payload, from + k * width, code);
        if !leaf::among_at(table, at, count, word) {
            return false;
        }
    }
    true
}
