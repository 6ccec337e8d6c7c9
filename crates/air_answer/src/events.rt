// The event that a PDU is: 16 for each module before its own, and the kind.
ghost use Rattle.std.specs.Prelude.{◌≡◌};
ghost use Rattle.air_answer.specs.Events.{negative_event, positive_event, unmet_event, request_event, opens, cancel_event, uplink_event, may_come, reason_in};

use air_tables::names::*;
use link::moves::{NO_DATA, NO_REQUEST, OF_EC, OF_EM, OF_PC, by_ack};
use pdu::downlink::Air;
use pdu::reasons::UNDEFINED_ERROR;
use pdu::uplink::Ground;

#[tactic(auto, unfolding(crate::specs::Events::negative_event))]
fn negative_event(request: u32) -> u8
    ensures { result ≡ negative_event request }
{
    match request {
        0 => OF_EC + NEGATIVE,
        1 => OF_PC + NEGATIVE,
        2 => DC_NEGATIVE,
        5 => OF_EM + EM_REFUSE,
        _ => NO_REQUEST,
    }
}

#[tactic(auto, unfolding(crate::specs::Events::positive_event))]
fn positive_event(request: u32) -> u8
    ensures { result ≡ positive_event request }
{
    match request {
        0 => OF_EC + AGREE,
        1 => OF_PC + AGREE,
        _ => NO_REQUEST,
    }
}

#[tactic(auto, unfolding(crate::specs::Events::unmet_event))]
fn unmet_event(kind: u32) -> u8
    ensures { result ≡ unmet_event kind }
{
    match kind {
        0 => DC_NONCOMPLIANCE,
        1 => OF_EC + AGREE,
        2 => OF_PC + AGREE,
        _ => NO_REQUEST,
    }
}

// What the user asks or answers.
#[tactic(auto, unfolding(crate::specs::Events::request_event))]
pub fn request_event(a: Air) -> u8
    ensures { result ≡ request_event a }
{
    match a {
        Air::CancelEmergency => OF_EM + EM_CANCEL,
        Air::Demand(x) => by_ack(x.ack, DC_REPORT_ACK, DC_REPORT),
        Air::Emergency(x) => by_ack(x.ack, OF_EM + EM_REPORT_ACK, OF_EM + EM_REPORT),
        Air::Event(x) => by_ack(x.ack, OF_EC + REPORT_ACK, OF_EC + REPORT),
        Air::Negative(x) => negative_event(x.request),
        Air::Noncompliance(n) => unmet_event(n),
        Air::Periodic(x) => by_ack(x.ack, OF_PC + REPORT_ACK, OF_PC + REPORT),
        Air::Positive(n) => positive_event(n),
        Air::Abort(_) => NO_REQUEST,
    }
}

// Whether a PDU may go as the start response.
#[tactic(auto, unfolding(crate::specs::Events::opens))]
pub fn may_open(a: Air) -> bool
    ensures { result ≡ opens a }
{
    !matches!(a, Air::CancelEmergency | Air::Emergency(_))
}

#[tactic(auto, unfolding(crate::specs::Events::cancel_event))]
fn cancel_event(contract: u32) -> u8
    ensures { result ≡ cancel_event contract }
{
    match contract {
        0 => OF_EC + CANCEL_CONTRACT,
        1 => OF_PC + CANCEL_CONTRACT,
        _ => NO_DATA,
    }
}

// Data from the ground.
#[tactic(auto, unfolding(crate::specs::Events::uplink_event))]
pub fn uplink_event(g: Ground) -> u8
    ensures { result ≡ uplink_event g }
{
    match g {
        Ground::CancelAll => NO_DATA,
        Ground::CancelContract(n) => cancel_event(n),
        Ground::CancelEmergencyAck => OF_EM + EM_ACK,
        Ground::DemandContract(_) => DC_CONTRACT,
        Ground::EventContract(_) => OF_EC + CONTRACT,
        Ground::ModifyEmergency(_) => OF_EM + EM_MODIFY,
        Ground::PeriodicContract(_) => OF_PC + CONTRACT,
        Ground::Abort(_) => NO_DATA,
    }
}

// Whether data may come where LI then goes to `li`: with a start indication a contract alone.
#[tactic(auto, unfolding(crate::specs::Events::may_come))]
pub fn may_come(li: u8, event: u8) -> bool
    ensures { result ≡ may_come li event }
{
    if li != LI_START {
        return event != NO_DATA;
    }
    event == DC_CONTRACT || event == OF_EC + CONTRACT || event == OF_PC + CONTRACT
}

// The reason that a provider abort gives; any other PDU gives none that is known.
#[tactic(auto, unfolding(crate::specs::Events::reason_in))]
pub fn reason_in(g: Ground) -> u32
    ensures { result ≡ reason_in g }
{
    let Ground::Abort(n) = g else {
        return UNDEFINED_ERROR;
    };
    n
}
