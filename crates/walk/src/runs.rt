// A run of a record's members that are bases: most members are, and their codes are read at once, from parts of the table that
// are tested once.
ghost use Rattle.std.specs.Prelude.{◌≡◌, ◌≤◌, length};
ghost use Rattle.wire.specs.Bytes.{over};
ghost use Rattle.walk.specs.Codes.{Places, Parts, are_there, leading, firsts, part_code, turned, code_count, codes_of, placed_count, placed_codes};

use crate::NO_BASE;
use table::{Entry, Sections};

// The bytes of a type's entry and of a member's.
const TYPE_BYTES: usize = table::layout::TYPE_WIDTH as usize;

const MEMBER_BYTES: usize = table::layout::MEMBER_WIDTH as usize;

// How many numbers there are of half an entry.
const HALF: u64 = 4294967296;

// The base codes of a record's members from the k-th on, a byte each, as long as they are bases and there is room for a code;
// none where the sections do not lie within the table. Answers how many.
pub fn base_codes(table: &[u8], s: Sections, i: u16, e: Entry, from: u32, codes: &mut [u8]) -> usize
    ensures value { result ≡ code_count table.now s i e from (length codes.old) }
    ensures codes_after { codes.new ≡ over codes.old 0 (codes_of table.now s i e from (length codes.old)) }
{
    if e.count as u32 <= from {
        return 0;
    }
    let n = wire::least(codes.len(), (e.count as u32 - from) as usize);
    let types = table::layout::type_place(s, 0);
    let members = table::layout::member_place(s, e.first as u32 + from);
    codes_at(table, types, members, i, n, codes)
}

// The same of the types below i, which stand at `types`, and of the n members at `members`.
fn codes_at(table: &[u8], types: usize, members: usize, i: u16, n: usize, codes: &mut [u8]) -> usize
    requires places { Places types members n }
    requires n_in_bounds { n ≤ length codes.old }
    ensures value { result ≡ placed_count table.now types members i n }
    ensures codes_after { codes.new ≡ over codes.old 0 (placed_codes table.now types members i n) }
{
    if are_there(table.len(), types, members, i, n) {
        codes_in(
            &table[types..types + TYPE_BYTES * (i as usize)],
            &table[members..members + MEMBER_BYTES * n],
            i,
            n,
            codes,
        )
    } else {
        0
    }
}

fn are_there(len: usize, types: usize, members: usize, i: u16, n: usize) -> bool
    requires { Places types members n }
    ensures { result ≡ are_there len types members i n }
{
    wire::has_room(len, types, TYPE_BYTES * (i as usize))
        & wire::has_room(len, members, MEMBER_BYTES * n)
}

// The same in parts of i types and of n members: the compiler knows the lengths of both, makes one load of each number and
// drops the tests.
fn codes_in(types: &[u8], members: &[u8], i: u16, n: usize, codes: &mut [u8]) -> usize
    requires { Parts types.now members.now i n codes.old }
    ensures value { result ≡ leading (part_code types.now members.now i) n }
    ensures codes_after { codes.new
        ≡ over codes.old 0
        (firsts (part_code types.now members.now i) (leading (part_code types.now members.now i) n)) }
{
    for k in 0..n {
        let child = wire::whole_at::<u16>(members, MEMBER_BYTES * k);
        if i <= child {
            return k;
        }
        let entry = wire::whole_at::<u64>(types, TYPE_BYTES * (child as usize));
        let code = turned(entry);
        if NO_BASE as u64 <= code {
            return k;
        }
        codes[k] = code as u8;
    }
    n
}

// The four numbers of an entry as one, with its halves exchanged. Those of a base are 0 but for the second, its code: so they
// are compared at once, and this is the code.
fn turned(entry: u64) -> u64
    ensures { result ≡ turned entry }
{
    entry % HALF * HALF + entry / HALF
}
