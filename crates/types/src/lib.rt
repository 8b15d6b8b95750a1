// The rules of a type table (01, "The type table"): checked once, which answers its sections, and looked up ever after by its
// bytes and those sections. A bad table is refused: 30 and 31 by its sections, 32 for an entry that breaks a rule, 33 for a
// type that can exceed 65,536 bytes.
#![tactic(auto)]

mod alike;
mod enums;
mod inside;
mod rules;
pub mod sizes;
mod values;

ghost use Rattle.std.specs.Prelude.{◌≡◌};
ghost use Rattle.types.specs.Inside.{Lying};
ghost use Rattle.types.specs.Table.{checked, judged, entries_ok};

use refusal::Refusal;
use table::Sections;

// The number of a walk that meets an entry which breaks a rule.
pub const RULE_BROKEN: u32 = 32;

#[tactic(auto, unfolding(crate::specs::Table::checked, crate::specs::Table::judging))]
pub fn check(table: &[u8]) -> Result<Sections, Refusal>
    ensures { result ≡ checked table.now }
{
    let s = table::read(table)?;
    judged(table, s)
}

// Every entry is judged before any size.
fn judged(table: &[u8], s: Sections) -> Result<Sections, Refusal>
    requires { Lying table.now s }
    ensures { result ≡ judged table.now s }
{
    if entries_ok(table, s) {
        if sizes::all_fit(table, s) {
            Ok(s)
        } else {
            Err(Refusal::TableSize)
        }
    } else {
        Err(Refusal::TableEntry)
    }
}

fn entries_ok(table: &[u8], s: Sections) -> bool
    requires { Lying table.now s }
    ensures { result ≡ entries_ok table.now s }
{
    if rules::types_ok(table, s) {
        let operations = s.operations;
        operations::are_good(table, operations.at, operations.count, s.types.count)
    } else {
        false
    }
}
