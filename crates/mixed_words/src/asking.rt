// What is known of a partner's service, asked by number.
ghost use Rattle.std.specs.Prelude.{◌≡◌, take, drop};
ghost use Rattle.services.specs.Block.{services};
ghost use Rattle.mixed_words.specs.ServiceCalls.{availability_number, service_number};

use crate::stamps::PARTNERS_WORDS;
use services::{Availability, SERVICES};

const UNHEARD: u32 = 0;

const UNAVAILABLE: u32 = 1;

const AVAILABLE: u32 = 2;

// 2 where the service of that platform is AVAILABLE, 1 where it is UNAVAILABLE, 0 where nothing was heard of it.
pub fn service(partners: &[u64; PARTNERS_WORDS], services: &[u64], platform: u32, id: u32) -> u32
    ensures { result ≡ service_number partners.now services.now platform id }
{
    if partners::is_three(partners, platform) {
        let start = partners::block_start(partners, platform);
        let block = block_at(services, start);
        number_of(services::state(block, id))
    } else {
        UNHEARD
    }
}

// As much of a block as there is.
fn block_at(words: &[u64], start: usize) -> &[u64]
    ensures { result.now ≡ take services (drop start words.now) }
{
    if words.len() < start {
        return &words[..0];
    }
    let left = words.len() - start;
    &words[start..start + SERVICES.min(left)]
}

fn number_of(known: Availability) -> u32
    ensures { result ≡ availability_number known }
{
    match known {
        Availability::Unheard => UNHEARD,
        Availability::Unavailable => UNAVAILABLE,
        Availability::Available => AVAILABLE,
    }
}
