// What else comes from below: a rejected start, aborts, a failure, the end confirm.
ghost use Rattle.std.specs.Prelude.{◌≡◌};
ghost use Rattle.per.specs.Pdu.{read_pdu};
ghost use Rattle.pdu.specs.DownlinkTable.{air_c};
ghost use Rattle.ground.specs.Endings.{reason_of, peer_aborted, air_aborted, failed, rejected, end_confirmed};

use ground_answer::abort::close_when;
use ground_answer::answer::*;
use ground_answer::events::reason_in;
use ground_answer::record::{Link, is_good, most_of};
use ground_tables::decide::li_over;
use ground_tables::names::*;
use link::actions::{ABORT_IND, PEER_ABORT_IND};
use link::executor::Step;
use pdu::decode_air;
use pdu::reasons::{NO_CONTACT, PROVIDER_FAILURE, UNDEFINED_ERROR};
use refusals::{BAD_RECORD, CANNOT_OCCUR};

// A rejected start: abort 5, with no abort request.
#[tactic(auto, unfolding(crate::specs::Endings::rejected))]
pub fn start_rejected(l: Link) -> Answer
    ensures { result ≡ rejected l }
{
    close_when(l, l.at[4] == LI_START, CANNOT_OCCUR, ABORT_IND, NO_CONTACT)
}

#[tactic(auto, unfolding(crate::specs::Endings::peer_aborted))]
pub fn peer_abort(l: Link) -> Answer
    ensures { result ≡ peer_aborted l }
{
    close_when(l, l.at[4] != LI_IDLE, CANNOT_OCCUR, PEER_ABORT_IND, 0)
}

// The reason in an abort's octets; 6 where they are no provider abort that reads well.
#[tactic(auto, unfolding(crate::specs::Endings::reason_of))]
fn reason_of(octets: &[u8]) -> u32
    ensures { result ≡ reason_of (read_pdu air_c octets.now) }
{
    let Ok(pdu) = decode_air(octets) else {
        return UNDEFINED_ERROR;
    };
    reason_in(pdu.kind)
}

// The aircraft's provider aborts.
#[tactic(auto, unfolding(crate::specs::Endings::air_aborted))]
pub fn air_abort(l: Link, octets: &[u8]) -> Answer
    ensures { result ≡ air_aborted l octets.now }
{
    let reason = reason_of(octets);
    close_when(l, l.at[4] != LI_IDLE, CANNOT_OCCUR, ABORT_IND, reason)
}

// The provider below fails.
#[tactic(auto, unfolding(crate::specs::Endings::failed))]
pub fn down(l: Link) -> Answer
    ensures { result ≡ failed l }
{
    close_when(
        l,
        l.at[4] != LI_IDLE,
        CANNOT_OCCUR,
        ABORT_IND,
        PROVIDER_FAILURE,
    )
}

#[tactic(auto, unfolding(crate::specs::Endings::end_confirmed, crate::specs::Endings::over))]
pub fn end_confirm(l: Link) -> Answer
    ensures { result ≡ end_confirmed l }
{
    if !is_good(l) {
        return refuse(l, BAD_RECORD);
    }
    if l.at[4] != LI_END {
        return refuse(l, CANNOT_OCCUR);
    }
    change(
        l,
        Step::begin(l.at, l.left).perform(li_over(), most_of(l), 0),
    )
}
