// Aborts from below, and a failure.
ghost use Rattle.std.specs.Prelude.{◌≡◌};
ghost use Rattle.per.specs.Pdu.{read_pdu};
ghost use Rattle.pdu.specs.UplinkTable.{ground_c};
ghost use Rattle.air.specs.Endings.{reason_of, peer_aborted, ground_aborted, failed};

use air_answer::abort::close_when;
use air_answer::answer::*;
use air_answer::events::reason_in;
use air_answer::record::AirLink;
use air_tables::names::*;
use link::actions::*;
use pdu::decode_ground;
use pdu::reasons::{PROVIDER_FAILURE, UNDEFINED_ERROR};
use refusals::CANNOT_OCCUR;

#[tactic(auto, unfolding(crate::specs::Endings::peer_aborted))]
pub fn peer_abort(l: AirLink) -> Answer
    ensures { result ≡ peer_aborted l }
{
    close_when(l, l.at[4] != LI_IDLE, CANNOT_OCCUR, PEER_ABORT_IND, 0)
}

// The reason in an abort's octets; 6 where they are no provider abort that reads well.
#[tactic(auto, unfolding(crate::specs::Endings::reason_of))]
fn reason_of(octets: &[u8]) -> u32
    ensures { result ≡ reason_of (read_pdu ground_c octets.now) }
{
    let Ok(g) = decode_ground(octets) else {
        return UNDEFINED_ERROR;
    };
    reason_in(g)
}

// The ground's provider aborts.
#[tactic(auto, unfolding(crate::specs::Endings::ground_aborted))]
pub fn ground_abort(l: AirLink, octets: &[u8]) -> Answer
    ensures { result ≡ ground_aborted l octets.now }
{
    let reason = reason_of(octets);
    close_when(l, l.at[4] != LI_IDLE, CANNOT_OCCUR, ABORT_IND, reason)
}

// The provider below fails.
#[tactic(auto, unfolding(crate::specs::Endings::failed))]
pub fn down(l: AirLink) -> Answer
    ensures { result ≡ failed l }
{
    close_when(
        l,
        l.at[4] != LI_IDLE,
        CANNOT_OCCUR,
        ABORT_IND,
        PROVIDER_FAILURE,
    )
}
