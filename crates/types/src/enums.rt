// The values of the enums of a table (01, "The type table"): each is allowed in its base, and no two of one enum are alike.
// Number 32.
ghost use Rattle.std.specs.Prelude.{◌≡◌};
ghost use Rattle.wire.specs.All.{all_below};
ghost use Rattle.types.specs.Values.{value_of, value_ok};

use table::{Entry, Sections, entries};

// Each value of an enum is allowed in its base.
pub(crate) fn values_allowed(table: &[u8], s: Sections, e: Entry) -> bool
    ensures { result ≡ all_below (value_ok table.now s e) e.count }
{
    (0..e.count).all(|k| value_ok(table, s, e, k))
}

fn value_ok(table: &[u8], s: Sections, e: Entry, k: u16) -> bool
    ensures { result ≡ value_ok table.now s e k }
{
    leaf::allowed(e.of, value_of(table, s, e, k))
}

// The k-th value of an enum.
fn value_of(table: &[u8], s: Sections, e: Entry, k: u16) -> u64
    ensures { result ≡ value_of table.now s e k }
{
    entries::value_at(table, s, e.first as u32 + k as u32)
}
