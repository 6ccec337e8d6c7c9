// What the user of the link asks.
ghost use Rattle.std.specs.Prelude.{◌≡◌};
ghost use Rattle.ground_answer.specs.Events.{asks_for};
ghost use Rattle.ground_answer.specs.Sent.{outgoing};
ghost use Rattle.ground.specs.Requests.{asked, all_cancelled, requested, user_aborted};

use ground_answer::abort::close_when;
use ground_answer::answer::*;
use ground_answer::events::{CANCEL_ALL, request_event};
use ground_answer::record::{Link, agree_on, clear, is_good, most_of, turn};
use ground_answer::sent::{own, write};
use ground_tables::decide::{decide, li_end};
use ground_tables::names::*;
use link::actions::{ABORT_REQUEST, DATA_REQUEST};
use link::executor::Step;
use link::moves::GOES;
use pdu::uplink::Ground;
use pdu_parts::interval::Interval;
use refusals::{BAD_RECORD, NOT_PERMITTED};

// The seconds that a periodic request asks for; they are few where its fields are in range.
#[tactic(auto, unfolding(ground_answer::specs::Events::asks_for))]
fn asks_for(g: Ground) -> u32
    requires { (outgoing g).refusal ≡ 0 }
    ensures { result ≡ asks_for g }
{
    let Ground::PeriodicContract(a) = g else {
        return 0;
    };
    match a.interval {
        Interval::Seconds(n) => n,
        Interval::Minutes(n) => n * 60,
    }
}

// A module's request, with LI then at `li` and `entry` for the PDU: 1 before the refusals of its fields.
#[tactic(auto, unfolding(crate::specs::Requests::asked, ground_answer::specs::Record::went, ground_answer::specs::Record::agreed_at, ground_answer::specs::Record::move_at, ground_answer::specs::Record::turned, link::specs::Step::performed, link::specs::Step::begun))]
fn ask(l: Link, g: Ground, li: u8, entry: u8) -> Answer
    ensures { result ≡ asked l g li entry }
{
    let first = turn(l, li);
    let event = request_event(g);
    let m = decide(first.at, event);
    if m.fate != GOES {
        return refuse(l, NOT_PERMITTED);
    }
    match write(g) {
        Ok(sent) => {
            let next = agree_on(l, event, asks_for(g), m);
            tell(next, first.perform(m, most_of(next), entry), 0, sent)
        }
        Err(refusal) => refuse(l, refusal.number()),
    }
}

#[tactic(auto, unfolding(crate::specs::Requests::all_cancelled, crate::specs::Requests::cancelled))]
fn cancel_all(l: Link) -> Answer
    ensures { result ≡ all_cancelled l }
{
    if !is_good(l) {
        return refuse(l, BAD_RECORD);
    }
    if l.at[4] != LI_ACTIVE {
        return refuse(l, NOT_PERMITTED);
    }
    let sent = own(Ground::CancelAll);
    let next = clear(l);
    let stopped = Step::stop_all(l.left, LI_ACTIVE);
    let step = stopped.perform(li_end(), most_of(next), END_REQUEST);
    tell(next, step, 0, sent)
}

// A request: in LI-IDLE a start request, in ACTIVE a data request or, for cancel-all, the end request.
#[tactic(auto, unfolding(crate::specs::Requests::requested))]
pub fn request(l: Link, g: Ground) -> Answer
    ensures { result ≡ requested l g }
{
    if request_event(g) == CANCEL_ALL {
        return cancel_all(l);
    }
    if !is_good(l) {
        return refuse(l, BAD_RECORD);
    }
    match l.at[4] {
        LI_IDLE => ask(l, g, LI_START, START_REQUEST),
        LI_ACTIVE => ask(l, g, LI_ACTIVE, DATA_REQUEST),
        _ => refuse(l, NOT_PERMITTED),
    }
}

// No PDU goes, and the user is told nothing.
#[tactic(auto, unfolding(crate::specs::Requests::user_aborted))]
pub fn user_abort(l: Link) -> Answer
    ensures { result ≡ user_aborted l }
{
    close_when(l, l.at[4] != LI_IDLE, NOT_PERMITTED, ABORT_REQUEST, 0)
}
