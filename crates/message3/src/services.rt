// A status of services, AVAILABILITY_STATUS: 001, Table 4. How many it tells of, then a pair for each: ID and state.
ghost use Rattle.std.specs.Prelude.{◌≡◌, eqb, length};
ghost use Rattle.wire.specs.All.{all_below};
ghost use Rattle.message3.specs.Platform.{first_in, known_state, services_length};

use crate::Message3;
use message::Status;

// The bytes of how many, and of a pair.
const COUNT: usize = 4;

const PAIR: usize = 8;

// The byte of the payload at which the first state stands.
const STATES_AT: usize = 8;

// Whether the payload is as long as it says. The pairs that are there are counted, and 4 + 8n is not formed: in 32 bits it is 4 for
// 2^29 services.
pub(crate) fn are_whole(payload: &[u8]) -> bool
    ensures { result ≡ eqb (length payload.now) (services_length (first_in payload.now)) }
{
    if payload.len() < COUNT {
        return false;
    }
    let pairs = payload.len() - COUNT;
    pairs % PAIR == 0
        && pairs / PAIR == wire::number_at::<u32>(payload, Message3::FIRST_AT) as usize
}

// Whether no state is reserved.
pub(crate) fn are_known(payload: &[u8]) -> bool
    ensures { result ≡ all_below (known_state payload.now) (first_in payload.now) }
{
    (0..wire::number_at::<u32>(payload, Message3::FIRST_AT)).all(|i| is_known(payload, i))
}

fn is_known(payload: &[u8], i: u32) -> bool
    ensures { result ≡ known_state payload.now i }
{
    wire::number_at::<u32>(payload, STATES_AT + PAIR * (i as usize)) < Status::RESERVED_STATES
}
