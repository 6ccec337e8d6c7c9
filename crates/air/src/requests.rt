// What the user of the link asks and answers.
ghost use Rattle.std.specs.Prelude.{◌≡◌};
ghost use Rattle.air.specs.Requests.{asked, requested, user_aborted};

use air_answer::abort::close_when;
use air_answer::answer::*;
use air_answer::events::{may_open, request_event};
use air_answer::record::{AirLink, is_good, most_of, turn};
use air_answer::sent::write;
use air_tables::decide::decide;
use air_tables::names::*;
use link::actions::*;
use link::moves::GOES;
use pdu::downlink::AirPdu;
use refusals::{BAD_RECORD, NOT_PERMITTED};

// A module's request or response, with `entry` for the PDU: 1 before the refusals of its fields.
#[tactic(auto, unfolding(crate::specs::Requests::asked, air_answer::specs::Record::move_at, air_answer::specs::Record::played, sides::specs::Runs::performed_all, link::specs::Step::performed, link::specs::Step::begun))]
fn ask(l: AirLink, a: AirPdu, entry: u8) -> Answer
    ensures { result ≡ asked l a entry }
{
    let first = turn(l, LI_ACTIVE);
    let m = decide(first.at, request_event(a.kind));
    if m.fate != GOES {
        return refuse(l, NOT_PERMITTED);
    }
    match write(a) {
        Ok(sent) => tell(l, first.perform(m, most_of(l), entry), 0, sent),
        Err(refusal) => refuse(l, refusal.number()),
    }
}

// A request or response: in ACTIVE a data request; in START what may open the link is the start response.
#[tactic(auto, unfolding(crate::specs::Requests::requested))]
pub fn request(l: AirLink, a: AirPdu) -> Answer
    ensures { result ≡ requested l a }
{
    if !is_good(l) {
        return refuse(l, BAD_RECORD);
    }
    match l.at[4] {
        LI_ACTIVE => ask(l, a, DATA_REQUEST),
        LI_START if may_open(a.kind) => ask(l, a, START_RESPONSE),
        _ => refuse(l, NOT_PERMITTED),
    }
}

// No PDU goes, and the user is told nothing.
#[tactic(auto, unfolding(crate::specs::Requests::user_aborted))]
pub fn user_abort(l: AirLink) -> Answer
    ensures { result ≡ user_aborted l }
{
    close_when(l, l.at[4] != LI_IDLE, NOT_PERMITTED, ABORT_REQUEST, 0)
}
