// How many leaves each type has, and 0 for one that has no plan: each from those of the types before it.
ghost use Rattle.std.specs.Prelude.{◌≡◌, ◌*◌, ◌^◌, ◌≤◌, ◌<◌, length, get_or, take};
ghost use Rattle.table.specs.Layout.{most_types};
ghost use Rattle.plan.specs.Leaves.{sum_below, capped, row_leaves, leaves_met, leaf_counts};
ghost use Rattle.plan.specs.Members.{listed, member_leaves};
ghost use Rattle.plan.specs.Layout.{plans_length, length_in};

use refusal::Refusal;
use table::{Sections, entries};
use walk::Met;

// The most leaves that a type with a plan has.
const MOST: u64 = 512;

// How many words the plans of a table can take; 30 where the sections do not lie in its bytes.
pub fn length_in(table: &[u8], s: Sections) -> Result<usize, Refusal>
    ensures { result ≡ length_in table.now s }
{
    if table::within(table, s) {
        Ok(plans_length(table, s))
    } else {
        Err(Refusal::TableLength)
    }
}

fn plans_length(table: &[u8], s: Sections) -> usize
    requires { s.types.count ≤ most_types }
    ensures { result ≡ plans_length table.now s }
{
    let n = s.types.count as usize;
    let mut room = [0u16; 256];
    fill(table, s, &mut room, n);
    1 + n + sum(&room[..n])
}

pub(crate) fn sum(counts: &[u16]) -> usize
    requires { length counts.now ≤ most_types }
    ensures { (result ≡ sum_below (λ k. get_or counts.now k 0) (length counts.now)) × (result < 2 ^ 32) }
{
    let mut total: usize = 0;
    for count in counts {
        total += *count as usize;
    }
    total
}

// Writes the leaves of the types below n.
pub(crate) fn fill(table: &[u8], s: Sections, room: &mut [u16], n: usize)
    requires { (n ≤ length room.old) × (n ≤ most_types) }
    ensures { take n room.new ≡ leaf_counts table.now s n }
{
    for i in 0..n {
        let met = walk::look(table, s, i as u16);
        let count = leaves_met(table, s, &room[..i], met);
        room[i] = count;
    }
}

// Those of what was met, from those of the types before it.
fn leaves_met(table: &[u8], s: Sections, known: &[u16], met: Met) -> u16
    ensures { result ≡ leaves_met table.now s (listed known.now) met }
{
    match met {
        Met::Leaf(_) => 1,
        Met::Members(e) => row_leaves(table, s, known, e.first, e.count),
        Met::Elements(e) => {
            if e.kind == table::FIXED {
                capped(times(e.count, known_at(known, e.of)))
            } else {
                0
            }
        }
        Met::Broken => 0,
    }
}

// A record's: the sum over its members, if each has some.
fn row_leaves(table: &[u8], s: Sections, known: &[u16], first: u16, count: u16) -> u16
    ensures { result ≡ row_leaves (member_leaves table.now s known.now first) count }
{
    let mut total: u64 = 0;
    for k in 0..count {
        let member = entries::member_at(table, s, first as u32 + k as u32);
        let leaves = known_at(known, member);
        if leaves == 0 {
            return 0;
        }
        total += leaves as u64;
    }
    capped(total)
}

fn known_at(known: &[u16], i: u16) -> u16
    ensures { result ≡ get_or known.now i 0 }
{
    let at = i as usize;
    if at < known.len() { known[at] } else { 0 }
}

fn times(count: u16, leaves: u16) -> u64
    ensures { result ≡ count * leaves }
{
    (count as u64) * (leaves as u64)
}

fn capped(leaves: u64) -> u16
    ensures { result ≡ capped leaves }
{
    if leaves <= MOST { leaves as u16 } else { 0 }
}
