// The link record: made, changed and checked here.
ghost use Rattle.std.specs.Prelude.{◌≡◌};
ghost use Rattle.ground_tables.specs.Tables.{li_ok};
ghost use Rattle.ground_answer.specs.Record.{made, holding, loads, good, followed, cleared, turned};
ghost use Rattle.ground_tables.specs.Intervals.{agreed};

use ground_tables::intervals::{Intervals, agree, intervals_ok, no_intervals};
use ground_tables::names::*;
use ground_tables::watch::watch;
use link::executor::Step;
use link::moves::{Move, TIMERS, li_to};
use link::watch::{all_idle, settings_ok, states_ok, timers_ok};

// Settings and seconds left in watch order, 0 left for a timer that does not run; the states of DC, EC, PC, EM and LI; the intervals of the periodic contract.
#[derive(Drop)]
#[derive(Clone, Copy)]
pub struct Link {
    pub setting: [u32; TIMERS],
    pub left: [u32; TIMERS],
    pub at: [u8; 5],
    pub interval: Intervals,
}

pub fn make(setting: [u32; TIMERS], left: [u32; TIMERS], at: [u8; 5], interval: Intervals) -> Link
    ensures { result ≡ made setting left at interval }
{
    Link {
        setting,
        left,
        at,
        interval,
    }
}

fn hold(l: Link, interval: Intervals) -> Link
    ensures { result ≡ holding l interval }
{
    Link { interval, ..l }
}

// What a start of each timer loads: its setting, and for PC2 the interval in force as well.
#[tactic(auto, unfolding(crate::specs::Record::loads))]
pub fn most_of(l: Link) -> [u32; TIMERS]
    ensures { result ≡ loads l }
{
    let pc2 = PC2 as usize;
    let mut most = l.setting;
    most[pc2] = most[pc2].wrapping_add(l.interval.force);
    most
}

// The link after a step.
#[tactic(auto, unfolding(crate::specs::Record::followed))]
pub fn follow(l: Link, s: Step) -> Link
    ensures { result ≡ followed l s }
{
    let Step { left, at, .. } = s;
    Link { left, at, ..l }
}

// The intervals after an event and its move; `seconds` is what a periodic request asks for.
pub fn agree_on(l: Link, event: u8, seconds: u32, m: Move) -> Link
    ensures { result ≡ holding l (agreed l.interval event seconds m) }
{
    hold(l, agree(l.interval, event, seconds, m))
}

// Without intervals, where everything stops.
#[tactic(auto, unfolding(crate::specs::Record::cleared))]
pub fn clear(l: Link) -> Link
    ensures { result ≡ cleared l }
{
    hold(l, no_intervals())
}

// LI's own move to a state, the first of a call.
#[tactic(auto, unfolding(crate::specs::Record::turned))]
pub fn turn(l: Link, li: u8) -> Step
    ensures { result ≡ turned l li }
{
    Step::begin(l.at, l.left).perform(li_to(li), most_of(l), 0)
}

#[tactic(auto, unfolding(ground_tables::specs::Tables::li_ok))]
fn li_ok(at: [u8; 5]) -> bool
    ensures { result ≡ li_ok at }
{
    if at[4] == LI_IDLE || at[4] == LI_END {
        all_idle(at)
    } else {
        true
    }
}

// Whether a link record is good; one that isn't is refusal 29.
#[tactic(auto, unfolding(crate::specs::Record::good, sides::specs::Runs::timers_ok, sides::specs::Tables::states_ok, ground_tables::specs::Tables::ground_tables, ground_tables::specs::Tables::tops))]
pub fn is_good(l: Link) -> bool
    ensures { result ≡ good l }
{
    settings_ok(l.setting)
        && intervals_ok(l.at[2], l.interval)
        && states_ok(TOPS, l.at)
        && li_ok(l.at)
        && timers_ok(watch(), l.at, l.left, most_of(l))
}
