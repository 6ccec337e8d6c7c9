// The watch table: which timer runs at which states of the modules.
ghost use Rattle.std.specs.Prelude.{◌≡◌};
ghost use Rattle.ground_tables.specs.Watch.{ground_watch};

use crate::names::*;
use link::moves::*;
use link::watch::Watch;

// The module of each timer, the first and the last of its states, and the last state of EM at which it runs.
const MODULE: [u8; TIMERS] = [DC, DC, EC, EC, PC, PC, PC, EM, EM, LI];

const FIRST: [u8; TIMERS] = [
    DC_PENDING,
    DC_ACTIVE,
    START_PENDING,
    CANCEL,
    START_PENDING,
    ACTIVE,
    CANCEL,
    EM_ACTIVE,
    MODIFY,
    LI_END,
];

const LAST: [u8; TIMERS] = [
    DC_PENDING, DC_ACTIVE, PENDING, CANCEL, PENDING, ACTIVE, CANCEL, EM_ACTIVE, MODIFY, LI_END,
];

const EM_LAST: [u8; TIMERS] = [
    MODIFY, MODIFY, MODIFY, MODIFY, MODIFY, IDLE, MODIFY, MODIFY, MODIFY, MODIFY,
];

#[tactic(auto, unfolding(crate::specs::Watch::ground_watch))]
pub fn watch() -> Watch
    ensures { result ≡ ground_watch }
{
    Watch {
        who: MODULE,
        first: FIRST,
        last: LAST,
        em: EM_LAST,
    }
}
