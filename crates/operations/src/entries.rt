// Where the operations stand, one behind the other, and what they say.
ghost use Rattle.std.specs.Prelude.{◌≡◌, cond, ◌+◌, ◌-◌, ◌/◌, ◌%◌, ◌≤◌, length};
ghost use Rattle.wire.specs.Bytes.{number};
ghost use Rattle.operations.specs.Entries.{no_type, wide, width_of, op_width, op_place, kind_at, response_at, operation_at};

use crate::{Operation, REQUEST_SENT, REQUEST_SERVED};

// The type number that stands for none.
pub const NO_TYPE: u16 = 0xFFFF;

// How many bytes the entry at a place has.
pub fn width_at(table: &[u8], place: usize) -> usize
    ensures { result ≡ op_width table.now place }
{
    width_of(kind_at(table, place))
}

// Where the entry behind the last stands: the section's end.
pub fn end(table: &[u8], at: u16, count: u16) -> usize
    ensures { result ≡ op_place table.now at count }
{
    let mut place = at as usize;
    for _i in 0..count {
        place += width_at(table, place);
    }
    place
}

pub fn operation_at(table: &[u8], place: usize) -> Operation
    ensures { result ≡ operation_at table.now place }
{
    let head = head_at(table, place);
    let kind = kind_of(head);
    Operation {
        id: id_of(head),
        kind,
        carries: (head % 65536) as u16,
        responds: response_at(table, place, kind),
    }
}

pub fn kind_at(table: &[u8], place: usize) -> u16
    ensures { result ≡ kind_at table.now place }
{
    kind_of(head_at(table, place))
}

// An entry's ID, kind and type as one number: one test of the bytes in place of three.
pub(crate) fn head_at(table: &[u8], place: usize) -> u64
    ensures id { result / 4294967296 ≡ number 2 table.now place }
    ensures kind { result / 65536 % 65536 ≡ kind_at table.now place }
    ensures carries { result % 65536 ≡ number 1 table.now (place + 6) }
{
    wire::number_at::<u64>(table, place)
}

pub(crate) fn id_of(head: u64) -> u32
    ensures { result ≡ head / 4294967296 }
{
    (head / 4294967296) as u32
}

pub(crate) fn kind_of(head: u64) -> u16
    ensures { result ≡ head / 65536 % 65536 }
{
    (head / 65536 % 65536) as u16
}

pub(crate) fn width_of(kind: u16) -> usize
    ensures { result ≡ width_of kind }
{
    if is_wide(kind) { 10 } else { 8 }
}

// A request, sent or served: its entry goes on with the type of the response.
pub(crate) fn is_wide(kind: u16) -> bool
    ensures { result ≡ wide kind }
{
    (kind == REQUEST_SENT) | (kind == REQUEST_SERVED)
}

// The last number of the entry is read in either case, and what it stands for is chosen: a jump by the kind would be foretold badly.
fn response_at(table: &[u8], place: usize, kind: u16) -> u16
    ensures { result ≡ response_at table.now (place + 8) kind }
{
    let width = width_of(kind);
    if wire::has_room(table.len(), place, width) {
        type_or_none(is_wide(kind), ending_at(table, place + width))
    } else if is_wide(kind) {
        cut_off(table, place)
    } else {
        NO_TYPE
    }
}

fn type_or_none(is: bool, number: u16) -> u16
    ensures { result ≡ cond is number no_type }
{
    if is { number } else { NO_TYPE }
}

fn ending_at(table: &[u8], end: usize) -> u16
    requires le_end { 2 ≤ end }
    requires end_in_bounds { end ≤ length table.now }
    ensures { result ≡ number 1 table.now (end - 2) }
{
    wire::whole_at::<u16>(&table[end - 2..end], 0)
}

// The number behind the first 8 bytes, of which not all is there; past the end its place may be no number of 64 bits.
fn cut_off(table: &[u8], place: usize) -> u16
    ensures { result ≡ number 1 table.now (place + 8) }
{
    if place < table.len() {
        wire::number_at::<u16>(table, place + 8)
    } else {
        0
    }
}
