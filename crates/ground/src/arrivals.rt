// Data from the aircraft, and the answer to our start.
ghost use Rattle.std.specs.Prelude.{◌≡◌};
ghost use Rattle.per.specs.Pdu.{read_pdu};
ghost use Rattle.pdu.specs.DownlinkTable.{air_c};
ghost use Rattle.ground.specs.Arrivals.{ack_of, ended, passed, taken, confirmed, arrived, late_data};

use ground_answer::abort::abort;
use ground_answer::answer::*;
use ground_answer::events::air_event;
use ground_answer::record::{Link, agree_on, is_good, most_of, turn};
use ground_answer::sent::{Sent, nothing, own};
use ground_tables::decide::{decide, li_end};
use ground_tables::names::*;
use link::actions::DATA_REQUEST;
use link::executor::Step;
use link::moves::{GOES, Move};
use link::watch::all_idle;
use pdu::decode_air;
use pdu::reasons::{INVALID_PDU, SEQUENCE_ERROR};
use pdu::uplink::Ground;
use refusals::{BAD_RECORD, CANNOT_OCCUR};

// The emergency ack, where the move sends.
#[tactic(auto, unfolding(crate::specs::Arrivals::ack_of))]
fn ack_of(m: Move) -> Sent
    ensures { result ≡ ack_of m }
{
    if m.send {
        own(Ground::CancelEmergencyAck)
    } else {
        nothing()
    }
}

// After a move that data made: one end request at the end where all four modules are IDLE.
#[tactic(auto, unfolding(crate::specs::Arrivals::ended))]
fn end(l: Link, s: Step, sent: Sent) -> Answer
    ensures { result ≡ ended l s sent }
{
    if all_idle(s.at) {
        return tell(l, s.perform(li_end(), most_of(l), END_REQUEST), 0, sent);
    }
    tell(l, s, 0, sent)
}

// Data for the modules: what is not listed is abort 3.
#[tactic(auto, unfolding(crate::specs::Arrivals::passed, ground_answer::specs::Record::went, ground_answer::specs::Record::agreed_at, ground_answer::specs::Record::move_at, ground_answer::specs::Record::turned, link::specs::Step::performed, link::specs::Step::begun))]
fn pass(l: Link, event: u8) -> Answer
    ensures { result ≡ passed l event }
{
    let first = turn(l, LI_ACTIVE);
    let m = decide(first.at, event);
    if m.fate != GOES {
        return abort(l, SEQUENCE_ERROR);
    }
    let next = agree_on(l, event, 0, m);
    end(
        next,
        first.perform(m, most_of(next), DATA_REQUEST),
        ack_of(m),
    )
}

// A value is taken only when the reading is good; otherwise abort 2.
#[tactic(auto, unfolding(crate::specs::Arrivals::taken))]
fn take(l: Link, octets: &[u8]) -> Answer
    ensures { result ≡ taken l (read_pdu air_c octets.now) }
{
    let Ok(pdu) = decode_air(octets) else {
        return abort(l, INVALID_PDU);
    };
    pass(l, air_event(pdu.kind))
}

// The accepted answer to our start, with its data.
#[tactic(auto, unfolding(crate::specs::Arrivals::confirmed))]
pub fn start_confirm(l: Link, octets: &[u8]) -> Answer
    ensures { result ≡ confirmed l octets.now }
{
    if !is_good(l) {
        return refuse(l, BAD_RECORD);
    }
    if l.at[4] != LI_START {
        return refuse(l, CANNOT_OCCUR);
    }
    take(l, octets)
}

#[tactic(auto, unfolding(crate::specs::Arrivals::late_data))]
fn late(l: Link) -> Answer
    ensures { result ≡ late_data l }
{
    change(l, Step::begin(l.at, l.left).add(LATE))
}

// Data: in END it is set aside unread.
#[tactic(auto, unfolding(crate::specs::Arrivals::arrived))]
pub fn data(l: Link, octets: &[u8]) -> Answer
    ensures { result ≡ arrived l octets.now }
{
    if !is_good(l) {
        return refuse(l, BAD_RECORD);
    }
    match l.at[4] {
        LI_ACTIVE => take(l, octets),
        LI_END => late(l),
        _ => refuse(l, CANNOT_OCCUR),
    }
}
