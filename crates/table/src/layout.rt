// Where the entries of a table's sections stand.
ghost use Rattle.std.specs.Prelude.{◌≡◌};
ghost use Rattle.table.specs.Layout.{entry_place, section_end, type_place, member_place, value_place};

use crate::{Section, Sections};

// The bytes of one entry of each section; of an operation the fewest (`operations`).
pub const TYPE_WIDTH: u16 = 8;

pub const MEMBER_WIDTH: u16 = 2;

pub const VALUE_WIDTH: u16 = 8;

pub const OPERATION_WIDTH: u16 = 8;

// A section ends where the entry behind its last would stand.
pub(crate) fn end(s: Section, width: u16) -> usize
    ensures { result ≡ section_end width s }
{
    place(s, width, s.count as u32)
}

// Where the i-th entry of each section stands.
pub fn type_place(s: Sections, i: u32) -> usize
    ensures { result ≡ type_place s i }
{
    let types = s.types;
    place(types, TYPE_WIDTH, i)
}

pub fn member_place(s: Sections, i: u32) -> usize
    ensures { result ≡ member_place s i }
{
    let members = s.members;
    place(members, MEMBER_WIDTH, i)
}

pub(crate) fn value_place(s: Sections, i: u32) -> usize
    ensures { result ≡ value_place s i }
{
    let values = s.values;
    place(values, VALUE_WIDTH, i)
}

fn place(s: Section, width: u16, i: u32) -> usize
    ensures { result ≡ entry_place width s i }
{
    s.at as usize + (width as usize) * (i as usize)
}
