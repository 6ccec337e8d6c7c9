// The watch table: EM3 runs in EM-CANCEL, and the other places never.
ghost use Rattle.std.specs.Prelude.{◌≡◌};
ghost use Rattle.air_tables.specs.Watch.{air_watch};

use crate::names::{CANCEL, EM3};
use link::moves::{EM, TIMERS};
use link::watch::Watch;

// The number of no module.
const NO_MODULE: u8 = 5;

#[tactic(auto, unfolding(crate::specs::Watch::air_watch))]
pub fn watch() -> Watch
    ensures { result ≡ air_watch }
{
    let em3 = EM3 as usize;
    let mut who = [NO_MODULE; TIMERS];
    who[em3] = EM;
    let mut first = [1u8; TIMERS];
    first[em3] = CANCEL;
    let mut last = [0u8; TIMERS];
    last[em3] = CANCEL;
    Watch {
        who,
        first,
        last,
        em: [CANCEL; TIMERS],
    }
}
