// The event that a PDU is: 16 for each module before its own, and the kind.
ghost use Rattle.std.specs.Prelude.{◌≡◌};
ghost use Rattle.ground_answer.specs.Events.{negative_event, positive_event, unmet_event, air_event, cancel_event, request_event, reason_in};

use ground_tables::names::*;
use link::moves::{NO_DATA, NO_REQUEST, OF_EC, OF_EM, OF_PC, by_ack};
use pdu::downlink::Air;
use pdu::reasons::UNDEFINED_ERROR;
use pdu::uplink::Ground;

// LI's own request, of no module.
pub const CANCEL_ALL: u8 = 65;

#[tactic(auto, unfolding(crate::specs::Events::negative_event))]
fn negative_event(request: u32) -> u8
    ensures { result ≡ negative_event request }
{
    match request {
        0 => OF_EC + NEGATIVE,
        1 => OF_PC + NEGATIVE,
        2 => DC_NEGATIVE,
        _ => NO_DATA,
    }
}

#[tactic(auto, unfolding(crate::specs::Events::positive_event))]
fn positive_event(request: u32) -> u8
    ensures { result ≡ positive_event request }
{
    match request {
        0 => OF_EC + POSITIVE,
        1 => OF_PC + POSITIVE,
        3 => OF_EC + CANCELLED,
        4 => OF_PC + CANCELLED,
        5 => OF_EM + EM_POSITIVE,
        _ => NO_DATA,
    }
}

#[tactic(auto, unfolding(crate::specs::Events::unmet_event))]
fn unmet_event(kind: u32) -> u8
    ensures { result ≡ unmet_event kind }
{
    match kind {
        0 => DC_NONCOMPLIANCE,
        1 => OF_EC + NONCOMPLIANCE,
        2 => OF_PC + NONCOMPLIANCE,
        _ => NO_DATA,
    }
}

// Downlink data.
#[tactic(auto, unfolding(crate::specs::Events::air_event))]
pub fn air_event(a: Air) -> u8
    ensures { result ≡ air_event a }
{
    match a {
        Air::CancelEmergency => OF_EM + EM_CANCEL,
        Air::Demand(x) => by_ack(x.ack, DC_REPORT_ACK, DC_REPORT),
        Air::Emergency(x) => by_ack(x.ack, OF_EM + EM_REPORT_ACK, OF_EM + EM_REPORT),
        Air::Event(x) => by_ack(x.ack, OF_EC + REPORT_ACK, OF_EC + REPORT),
        Air::Negative(x) => negative_event(x.request),
        Air::Noncompliance(n) => unmet_event(n),
        Air::Periodic(x) => by_ack(x.ack, OF_PC + REPORT_ACK, OF_PC + REPORT),
        Air::Positive(n) => positive_event(n),
        Air::Abort(_) => NO_DATA,
    }
}

#[tactic(auto, unfolding(crate::specs::Events::cancel_event))]
fn cancel_event(contract: u32) -> u8
    ensures { result ≡ cancel_event contract }
{
    match contract {
        0 => OF_EC + CANCEL_REQUEST,
        1 => OF_PC + CANCEL_REQUEST,
        _ => NO_REQUEST,
    }
}

// A user's request.
#[tactic(auto, unfolding(crate::specs::Events::request_event))]
pub fn request_event(g: Ground) -> u8
    ensures { result ≡ request_event g }
{
    match g {
        Ground::CancelAll => CANCEL_ALL,
        Ground::CancelContract(n) => cancel_event(n),
        Ground::CancelEmergencyAck => NO_REQUEST,
        Ground::DemandContract(_) => REQUEST,
        Ground::EventContract(_) => OF_EC + REQUEST,
        Ground::ModifyEmergency(_) => OF_EM + MODIFY_REQUEST,
        Ground::PeriodicContract(_) => OF_PC + REQUEST,
        Ground::Abort(_) => NO_REQUEST,
    }
}

// The reason that a provider abort gives; any other PDU gives none that is known.
#[tactic(auto, unfolding(crate::specs::Events::reason_in))]
pub fn reason_in(a: Air) -> u32
    ensures { result ≡ reason_in a }
{
    let Air::Abort(n) = a else {
        return UNDEFINED_ERROR;
    };
    n
}
