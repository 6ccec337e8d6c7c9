// The abort rule, and the other calls that stop everything.
ghost use Rattle.std.specs.Prelude.{◌≡◌};
ghost use Rattle.air_answer.specs.Aborts.{closed, aborted, closed_when};

use crate::answer::*;
use crate::record::{AirLink, is_good};
use crate::sent::{nothing, own};
use link::executor::Step;
use pdu::downlink::Air;
use refusals::BAD_RECORD;

// One entry after the stops, and the reason that it shows.
#[tactic(auto, unfolding(crate::specs::Aborts::closed))]
fn close(l: AirLink, entry: u8, reason: u32) -> Answer
    ensures { result ≡ closed l entry reason }
{
    tell(l, Step::stop_then(l.left, entry), reason, nothing())
}

// Stops, abort request with the aircraft's provider abort, abort indication, all IDLE.
#[tactic(auto, unfolding(crate::specs::Aborts::aborted))]
pub fn abort(l: AirLink, reason: u32) -> Answer
    ensures { result ≡ aborted l reason }
{
    tell(l, Step::abort_all(l.left), reason, own(Air::Abort(reason)))
}

// Everything stops where it may; where not, the call is refused.
#[tactic(auto, unfolding(crate::specs::Aborts::closed_when))]
pub fn close_when(l: AirLink, may: bool, number: u8, entry: u8, reason: u32) -> Answer
    ensures { result ≡ closed_when l may number entry reason }
{
    if !is_good(l) {
        return refuse(l, BAD_RECORD);
    }
    if !may {
        return refuse(l, number);
    }
    close(l, entry, reason)
}
