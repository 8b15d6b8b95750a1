// Our services told, AVAILABILITY_STATUS at the output's start: 001, Table 4.
ghost use Rattle.std.specs.Prelude.{◌≡◌, [], ◌∷◌, ◌+◌, ◌*◌, ◌≤◌, ◌<◌, length};
ghost use Rattle.wire.specs.Bytes.{over};
ghost use Rattle.message3.specs.Platform.{pair_bytes};
ghost use Rattle.mixed.specs.Replies.{state_told, pairs_of, services_message, services_head, head_length, pair_length, most_ours};

use message::Own;
use message3::{Header3, Message3, Stamp};
use services::{AVAILABLE, STATE};

// The header and how many, and then each service.
pub(crate) const HEAD: usize = 28;

pub(crate) const PAIR: usize = 8;

const COUNT_BYTES: u32 = 4;

const PAIR_BYTES: u32 = 8;

const SECOND_FIELD: usize = 4;

// All of them, in their order.
pub(crate) fn tell_all(own: Own, stamp: Stamp, number: u32, ours: &[u64], out: &mut [u8])
    requires ours_len_bound { length ours.now < most_ours }
    requires ours_in_bounds { head_length + pair_length * length ours.now ≤ length out.old }
    ensures { out.new ≡ over out.old 0 (services_message own.platform stamp number (pairs_of ours.now)) }
{
    put_head(own, stamp, number, ours.len() as u32, out);
    put_pairs(ours, out);
}

// One, which is UNAVAILABLE where it is not ours.
pub(crate) fn tell_one(
    own: Own,
    stamp: Stamp,
    number: u32,
    id: u32,
    available: bool,
    out: &mut [u8],
)
    requires { head_length + pair_length ≤ length out.old }
    ensures { out.new ≡ over out.old 0 (services_message own.platform stamp number ((id, state_told available) ∷ [])) }
{
    put_head(own, stamp, number, 1, out);
    put_pair(id, available, HEAD, out);
}

fn put_head(own: Own, stamp: Stamp, number: u32, count: u32, out: &mut [u8])
    requires count_lt_most_ours { count < most_ours }
    requires head_length_in_bounds { head_length ≤ length out.old }
    ensures { out.new ≡ over out.old 0 (services_head own.platform stamp number count) }
{
    message3::put_platform_header(
        own,
        stamp,
        Message3::AVAILABILITY_STATUS,
        COUNT_BYTES + PAIR_BYTES * count,
        number,
        out,
    );
    wire::put_number::<u32>(out, Header3::LENGTH, count);
}

fn put_pairs(ours: &[u64], out: &mut [u8])
    requires { head_length + pair_length * length ours.now ≤ length out.old }
    ensures { out.new ≡ over out.old head_length (pair_bytes (pairs_of ours.now)) }
{
    for (i, word) in ours.iter().enumerate() {
        put_service(*word, HEAD + PAIR * i, out);
    }
}

fn put_service(word: u64, at: usize, out: &mut [u8])
    requires { at + pair_length ≤ length out.old }
    ensures { out.new ≡ over out.old at (pair_bytes (pairs_of (word ∷ []))) }
{
    put_pair((word % STATE) as u32, word / STATE == AVAILABLE, at, out);
}

fn put_pair(id: u32, available: bool, at: usize, out: &mut [u8])
    requires { at + pair_length ≤ length out.old }
    ensures { out.new ≡ over out.old at (pair_bytes ((id, state_told available) ∷ [])) }
{
    wire::put_number::<u32>(out, at, id);
    wire::put_number::<u32>(out, at + SECOND_FIELD, state_told(available));
}

fn state_told(available: bool) -> u32
    ensures { result ≡ state_told available }
{
    u32::from(available)
}
