// Our own services, which are the caller's words: each word is one service, its ID and as its upper half its state.
ghost use Rattle.std.specs.Prelude.{◌≡◌};
ghost use Rattle.mixed.specs.Ours.{ours_available};

use services::{AVAILABLE, STATE};

// Whether a service is AVAILABLE here; one that is not ours is not. Of two words with one ID the last counts, as it does for who
// hears of all.
pub(crate) fn is_available(ours: &[u64], id: u32) -> bool
    ensures { result ≡ ours_available ours.now id }
{
    ours.iter()
        .rev()
        .find(|word| **word % STATE == id as u64)
        .is_some_and(|word| *word / STATE == AVAILABLE)
}
