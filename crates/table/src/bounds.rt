// Where the sections of a table lie. They are found in reading order, each after the one before, and the first refusal
// met is the answer: 30 for a table cut short or one with bytes after its end, 31 for a count outside its limits.
ghost use Rattle.std.specs.Prelude.{◌≡◌, ◌≤◌};
ghost use Rattle.table.specs.Layout.{section_end, section_at, ended, after_values, after_members, after_types};
ghost use Rattle.table.specs.Layout.{sections_of, lies_in, within, type_width, member_width, value_width};

use crate::layout::{MEMBER_WIDTH, OPERATION_WIDTH, TYPE_WIDTH, VALUE_WIDTH};
use crate::{Section, Sections, layout};
use refusal::Refusal;

// The most entries of each section; of types there is at least one.
pub const MOST_TYPES: u16 = 256;

pub const MOST_MEMBERS: u16 = 1024;

pub const MOST_VALUES: u16 = 1024;

pub const MOST_OPERATIONS: u16 = 1024;

// Whether the sections could be those of these bytes: each within its limit, and within the bytes. In constant time.
pub fn within(table: &[u8], s: Sections) -> bool
    ensures { result ≡ within table.now s }
{
    let types = s.types;
    let members = s.members;
    let values = s.values;
    let operations = s.operations;
    lies_in(types, TYPE_WIDTH, MOST_TYPES, table.len())
        & lies_in(members, MEMBER_WIDTH, MOST_MEMBERS, table.len())
        & lies_in(values, VALUE_WIDTH, MOST_VALUES, table.len())
        & lies_in(operations, OPERATION_WIDTH, MOST_OPERATIONS, table.len())
}

// The four sections, and nothing after them.
#[tactic(auto, unfolding(crate::specs::Layout::sections_of, crate::specs::Layout::after))]
pub fn read(table: &[u8]) -> Result<Sections, Refusal>
    ensures { result ≡ sections_of table.now }
{
    let types = section(table, 0, TYPE_WIDTH, 1, MOST_TYPES)?;
    after_types(table, types)
}

#[tactic(auto, unfolding(crate::specs::Layout::after_types, crate::specs::Layout::after))]
fn after_types(table: &[u8], types: Section) -> Result<Sections, Refusal>
    requires { section_end type_width types ≤ 2050 }
    ensures { result ≡ after_types table.now types }
{
    let at = layout::end(types, TYPE_WIDTH);
    let members = section(table, at, MEMBER_WIDTH, 0, MOST_MEMBERS)?;
    after_members(table, types, members)
}

#[tactic(auto, unfolding(crate::specs::Layout::after_members, crate::specs::Layout::after))]
fn after_members(table: &[u8], types: Section, members: Section) -> Result<Sections, Refusal>
    requires { section_end member_width members ≤ 4100 }
    ensures { result ≡ after_members table.now types members }
{
    let at = layout::end(members, MEMBER_WIDTH);
    let values = section(table, at, VALUE_WIDTH, 0, MOST_VALUES)?;
    after_values(table, types, members, values)
}

#[tactic(auto, unfolding(crate::specs::Layout::after_values, crate::specs::Layout::after))]
fn after_values(
    table: &[u8],
    types: Section,
    members: Section,
    values: Section,
) -> Result<Sections, Refusal>
    requires { section_end value_width values ≤ 12294 }
    ensures { result ≡ after_values table.now types members values }
{
    let at = layout::end(values, VALUE_WIDTH);
    let operations = section(table, at, OPERATION_WIDTH, 0, MOST_OPERATIONS)?;
    ended(
        table,
        Sections {
            types,
            members,
            values,
            operations,
        },
    )
}

// The operations, whose entries have two widths, end where the bytes do.
fn ended(table: &[u8], s: Sections) -> Result<Sections, Refusal>
    ensures { result ≡ ended table.now s }
{
    let at = s.operations.at;
    let count = s.operations.count;
    if operations::end(table, at, count) == table.len() {
        Ok(s)
    } else {
        Err(Refusal::TableLength)
    }
}

// The section whose count stands at `at`.
fn section(table: &[u8], at: usize, width: u16, least: u16, most: u16) -> Result<Section, Refusal>
    requires { at ≤ 65533 }
    ensures { result ≡ section_at width least most table.now at }
{
    if table.len() < at + 2 {
        return Err(Refusal::TableLength);
    }
    let count = wire::number_at::<u16>(table, at);
    if (count < least) | (most < count) {
        return Err(Refusal::TableCount);
    }
    let found = Section {
        at: (at + 2) as u16,
        count,
    };
    if table.len() < layout::end(found, width) {
        return Err(Refusal::TableLength);
    }
    Ok(found)
}

fn lies_in(s: Section, width: u16, most: u16, len: usize) -> bool
    ensures { result ≡ lies_in width most len s }
{
    (s.count <= most) & (layout::end(s, width) <= len)
}
