// What comes from the ground: a start indication, data, an end indication.
ghost use Rattle.std.specs.Prelude.{◌≡◌};
ghost use Rattle.per.specs.Pdu.{read_pdu};
ghost use Rattle.pdu.specs.UplinkTable.{ground_c};
ghost use Rattle.air.specs.Arrivals.{ack_of, passed, taken, indicated, arrived, ended, all_cancelled, end_indicated};

use air_answer::abort::abort;
use air_answer::answer::*;
use air_answer::events::{may_come, uplink_event};
use air_answer::record::{AirLink, is_good, most_of, turn};
use air_answer::sent::{Sent, nothing, own};
use air_tables::decide::{decide, halt, halt_em, li_answer};
use air_tables::names::*;
use link::actions::*;
use link::executor::Step;
use link::moves::*;
use pdu::decode_ground;
use pdu::downlink::Air;
use pdu::reasons::{INVALID_PDU, SEQUENCE_ERROR};
use pdu::uplink::Ground;
use refusals::{BAD_RECORD, CANNOT_OCCUR};

// The ack of a cancel, where the move sends.
#[tactic(auto, unfolding(crate::specs::Arrivals::ack_of))]
fn ack_of(m: Move) -> Sent
    ensures { result ≡ ack_of m }
{
    if !m.send {
        return nothing();
    }
    if m.who == EC {
        return own(Air::Positive(3));
    }
    own(Air::Positive(4))
}

// Data for the modules, with LI then at `li`: what is not listed is abort 3.
#[tactic(auto, unfolding(crate::specs::Arrivals::passed, air_answer::specs::Record::move_at, air_answer::specs::Record::played, sides::specs::Runs::performed_all, link::specs::Step::performed, link::specs::Step::begun))]
fn pass(l: AirLink, li: u8, event: u8) -> Answer
    ensures { result ≡ passed l li event }
{
    let first = turn(l, li);
    let m = decide(first.at, event);
    if m.fate != GOES {
        return abort(l, SEQUENCE_ERROR);
    }
    tell(l, first.perform(m, most_of(l), DATA_REQUEST), 0, ack_of(m))
}

// A value is taken only when the reading is good and it may come; otherwise abort 2.
#[tactic(auto, unfolding(crate::specs::Arrivals::taken))]
fn take(l: AirLink, li: u8, octets: &[u8]) -> Answer
    ensures { result ≡ taken l li (read_pdu ground_c octets.now) }
{
    let Ok(g) = decode_ground(octets) else {
        return abort(l, INVALID_PDU);
    };
    let event = uplink_event(g);
    if !may_come(li, event) {
        return abort(l, INVALID_PDU);
    }
    pass(l, li, event)
}

// The ground's start, with its data.
#[tactic(auto, unfolding(crate::specs::Arrivals::indicated))]
pub fn start_ind(l: AirLink, octets: &[u8]) -> Answer
    ensures { result ≡ indicated l octets.now }
{
    if !is_good(l) {
        return refuse(l, BAD_RECORD);
    }
    if l.at[4] != LI_IDLE {
        return refuse(l, CANNOT_OCCUR);
    }
    take(l, LI_START, octets)
}

#[tactic(auto, unfolding(crate::specs::Arrivals::arrived))]
pub fn data(l: AirLink, octets: &[u8]) -> Answer
    ensures { result ≡ arrived l octets.now }
{
    if !is_good(l) {
        return refuse(l, BAD_RECORD);
    }
    match l.at[4] {
        LI_ACTIVE => take(l, LI_ACTIVE, octets),
        _ => refuse(l, CANNOT_OCCUR),
    }
}

// The end response, with an indication where the user is told; then the modules stop, and LI is IDLE.
#[tactic(auto, unfolding(crate::specs::Arrivals::ended, crate::specs::Arrivals::end_parts, air_tables::specs::Moves::halts, air_answer::specs::Record::played, sides::specs::Runs::performed_all))]
fn end(l: AirLink, told: bool, sent: Sent) -> Answer
    ensures { result ≡ ended l told sent }
{
    let most = most_of(l);
    let step = Step::begin(l.at, l.left)
        .perform(li_answer(told), most, END_RESPONSE)
        .perform(halt(DC), most, 0)
        .perform(halt(EC), most, 0)
        .perform(halt(PC), most, 0)
        .perform(halt_em(l.at[3]), most, 0)
        .perform(li_to(LI_IDLE), most, 0);
    tell(l, step, 0, sent)
}

// The data of an end indication: cancel-all, or abort 2.
#[tactic(auto, unfolding(crate::specs::Arrivals::all_cancelled))]
fn cancel_all(l: AirLink, octets: &[u8]) -> Answer
    ensures { result ≡ all_cancelled l (read_pdu ground_c octets.now) }
{
    let Ok(g) = decode_ground(octets) else {
        return abort(l, INVALID_PDU);
    };
    match g {
        Ground::CancelAll => end(l, true, own(Air::Positive(6))),
        _ => abort(l, INVALID_PDU),
    }
}

#[tactic(auto, unfolding(crate::specs::Arrivals::end_indicated))]
pub fn end_ind(l: AirLink, octets: &[u8]) -> Answer
    ensures { result ≡ end_indicated l octets.now }
{
    if !is_good(l) {
        return refuse(l, BAD_RECORD);
    }
    if l.at[4] != LI_ACTIVE {
        return refuse(l, CANNOT_OCCUR);
    }
    if octets.is_empty() {
        return end(l, false, nothing());
    }
    cancel_all(l, octets)
}
