// The clock.
ghost use Rattle.std.specs.Prelude.{◌≡◌};
ghost use Rattle.air_answer.specs.Clock.{elapsed};

use crate::abort::abort;
use crate::answer::*;
use crate::record::{AirLink, is_good};
use crate::sent::nothing;
use link::clock::{ELAPSE_MOST, after, none_due};
use link::executor::Step;
use pdu::reasons::TIMER_EXPIRY;
use refusals::{BAD_RECORD, ELAPSE_OVER};

// An elapse of n seconds.
#[tactic(auto, unfolding(crate::specs::Clock::elapsed, crate::specs::Clock::waited))]
pub fn elapse(l: AirLink, n: u32) -> Answer
    ensures { result ≡ elapsed l n }
{
    if !is_good(l) {
        return refuse(l, BAD_RECORD);
    }
    if ELAPSE_MOST < n {
        return refuse(l, ELAPSE_OVER);
    }
    if none_due(n, l.left) {
        tell(l, Step::begin(l.at, after(n, l.left)), 0, nothing())
    } else {
        abort(l, TIMER_EXPIRY)
    }
}
