// The intervals of a periodic contract: which states of PC have them, and what an event makes of them.
ghost use Rattle.std.specs.Prelude.{◌≡◌, leb};
ghost use Rattle.link.specs.Tests.{both};
ghost use Rattle.ground_tables.specs.Intervals.{no_intervals, interval_ok, intervals_ok, agrees, answers, agreed, asked_after, force_after};

use crate::names::*;
use link::moves::{IDLE, Move, OF_PC, PC};

// Seconds of the interval asked for and of the one in force; 0 where there is none.
#[derive(Drop)]
#[derive(Clone, Copy)]
pub struct Intervals {
    pub asked: u32,
    pub force: u32,
}

// The longest interval, two hours.
pub const INTERVAL_MOST: u32 = 7200;

pub fn no_intervals() -> Intervals
    ensures { result ≡ no_intervals }
{
    Intervals { asked: 0, force: 0 }
}

fn between(first: u8, pc: u8, last: u8) -> bool
    ensures { result ≡ both (leb first pc) (leb pc last) }
{
    first <= pc && pc <= last
}

#[tactic(auto, unfolding(crate::specs::Intervals::interval_ok))]
fn interval_ok(held: bool, x: u32) -> bool
    ensures { result ≡ interval_ok held x }
{
    if held {
        1 <= x && x <= INTERVAL_MOST
    } else {
        x == 0
    }
}

// Whether each interval is there, 1 to 7,200 seconds, exactly at the states of PC that have it.
#[tactic(auto, unfolding(crate::specs::Intervals::intervals_ok))]
pub fn intervals_ok(pc: u8, i: Intervals) -> bool
    ensures { result ≡ intervals_ok pc i }
{
    interval_ok(between(START_PENDING, pc, PENDING), i.asked)
        && interval_ok(between(PENDING, pc, CANCEL), i.force)
}

// The answers by which the interval asked for comes into force.
#[tactic(auto, unfolding(crate::specs::Intervals::agrees))]
fn is_agreed(event: u8) -> bool
    ensures { result ≡ agrees event }
{
    event == OF_PC + REPORT_ACK || event == OF_PC + POSITIVE || event == OF_PC + NONCOMPLIANCE
}

#[tactic(auto, unfolding(crate::specs::Intervals::answers))]
fn is_answer(event: u8) -> bool
    ensures { result ≡ answers event }
{
    is_agreed(event) || event == OF_PC + NEGATIVE
}

fn asked_after(event: u8, state: u8, new: u32, old: u32) -> u32
    ensures { result ≡ asked_after event state 0 new old }
{
    if state == IDLE {
        return 0;
    }
    if event == OF_PC + REQUEST {
        return new;
    }
    if is_answer(event) { 0 } else { old }
}

fn force_after(event: u8, state: u8, asked: u32, old: u32) -> u32
    ensures { result ≡ force_after event state 0 asked old }
{
    if state == IDLE {
        return 0;
    }
    if is_agreed(event) { asked } else { old }
}

// The intervals after an event and its move; `seconds` is what a periodic request asks for.
#[tactic(auto, unfolding(crate::specs::Intervals::agreed))]
pub fn agree(i: Intervals, event: u8, seconds: u32, m: Move) -> Intervals
    ensures { result ≡ agreed i event seconds m }
{
    if m.who != PC {
        return i;
    }
    Intervals {
        asked: asked_after(event, m.to, seconds, i.asked),
        force: force_after(event, m.to, i.asked, i.force),
    }
}
