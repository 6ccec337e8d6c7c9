// The abort rule, and the other calls that stop everything.
ghost use Rattle.std.specs.Prelude.{◌≡◌};
ghost use Rattle.ground_answer.specs.Aborts.{closed, aborted, closed_when};

use crate::answer::*;
use crate::record::{Link, clear, is_good};
use crate::sent::{nothing, own};
use link::executor::Step;
use pdu::uplink::Ground;
use refusals::BAD_RECORD;

// One entry after the stops, and the reason that it shows.
#[tactic(auto, unfolding(crate::specs::Aborts::closed))]
fn close(l: Link, entry: u8, reason: u32) -> Answer
    ensures { result ≡ closed l entry reason }
{
    tell(clear(l), Step::stop_then(l.left, entry), reason, nothing())
}

// Stops, abort request with the ground provider abort, abort indication, all IDLE.
#[tactic(auto, unfolding(crate::specs::Aborts::aborted))]
pub fn abort(l: Link, reason: u32) -> Answer
    ensures { result ≡ aborted l reason }
{
    tell(
        clear(l),
        Step::abort_all(l.left),
        reason,
        own(Ground::Abort(reason)),
    )
}

// Everything stops where it may; where not, the call is refused.
#[tactic(auto, unfolding(crate::specs::Aborts::closed_when))]
pub fn close_when(l: Link, may: bool, number: u8, entry: u8, reason: u32) -> Answer
    ensures { result ≡ closed_when l may number entry reason }
{
    if !is_good(l) {
        return refuse(l, BAD_RECORD);
    }
    if !may {
        return refuse(l, number);
    }
    close(l, entry, reason)
}
