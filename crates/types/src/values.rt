// The values of an enum in order: then each is allowed in its base, and no two are alike. Number 32.
ghost use Rattle.std.specs.Prelude.{◌≡◌, ◌+◌, ◌≤◌};
ghost use Rattle.types.specs.Inside.{Lying};
ghost use Rattle.types.specs.Passes.{in_order};

use crate::inside;
use table::{Entry, Sections};

// Whether all are allowed and rise, as those of most enums do: then they are distinct, after one pass.
pub(crate) fn in_order(table: &[u8], s: Sections, e: Entry) -> bool
    requires { Lying table.now s × (e.first + e.count ≤ s.values.count) }
    ensures { result ≡ in_order table.now s e }
{
    let range = leaf::range_of(e.of);
    let zero = range.below;
    let most = range.last;
    let mut last: u64 = 0;
    for k in 0..e.count {
        let value = inside::value_in(table, s, e.first as u32 + k as u32);
        let next = std::num::wrapping_add_u64(value, zero);
        if ((k == 0) | (last < next)) & (next <= most) {
            last = next;
        } else {
            return false;
        }
    }
    true
}
