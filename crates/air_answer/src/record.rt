// The air link's record: made, changed and checked here.
ghost use Rattle.std.specs.Prelude.{◌≡◌, [], ◌∷◌};
ghost use Rattle.link.specs.Moves.{li_to};
ghost use Rattle.air_tables.specs.Tables.{li_ok};
ghost use Rattle.air_answer.specs.Record.{made, loads, good, followed, part, played};

use air_tables::names::*;
use air_tables::watch::watch;
use link::executor::Step;
use link::moves::{TIMERS, li_to};
use link::watch::{all_idle, setting_ok, states_ok, timers_ok};

// EM3's setting; seconds left in watch order, 0 left for a timer that does not run; the states of DC, EC, PC, EM and LI.
#[derive(Drop)]
#[derive(Clone, Copy)]
pub struct AirLink {
    pub setting: u32,
    pub left: [u32; TIMERS],
    pub at: [u8; 5],
}

pub fn make(setting: u32, left: [u32; TIMERS], at: [u8; 5]) -> AirLink
    ensures { result ≡ made setting left at }
{
    AirLink { setting, left, at }
}

// What a start of each timer loads: EM3 its setting; the others are never started.
#[tactic(auto, unfolding(crate::specs::Record::loads))]
pub fn most_of(l: AirLink) -> [u32; TIMERS]
    ensures { result ≡ loads l }
{
    let em3 = EM3 as usize;
    let mut most = [1u32; TIMERS];
    most[em3] = l.setting;
    most
}

// The link after a step.
#[tactic(auto, unfolding(crate::specs::Record::followed))]
pub fn follow(l: AirLink, s: Step) -> AirLink
    ensures { result ≡ followed l s }
{
    let Step { left, at, .. } = s;
    AirLink { left, at, ..l }
}

// LI's own move to a state, the first of a call.
#[tactic(auto, unfolding(crate::specs::Record::played, sides::specs::Runs::performed_all))]
pub fn turn(l: AirLink, li: u8) -> Step
    ensures { result ≡ played l (part l (li_to li) 0 ∷ []) }
{
    Step::begin(l.at, l.left).perform(li_to(li), most_of(l), 0)
}

#[tactic(auto, unfolding(air_tables::specs::Tables::li_ok))]
fn li_ok(at: [u8; 5]) -> bool
    ensures { result ≡ li_ok at }
{
    if at[4] == LI_IDLE { all_idle(at) } else { true }
}

// Whether a link record is good; one that isn't is refusal 29.
#[tactic(auto, unfolding(crate::specs::Record::good, sides::specs::Runs::timers_ok, sides::specs::Tables::states_ok, air_tables::specs::Tables::air_tables, air_tables::specs::Tables::tops))]
pub fn is_good(l: AirLink) -> bool
    ensures { result ≡ good l }
{
    setting_ok(l.setting)
        && states_ok(TOPS, l.at)
        && li_ok(l.at)
        && timers_ok(watch(), l.at, l.left, most_of(l))
}
