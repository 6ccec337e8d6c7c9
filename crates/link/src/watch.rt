// The watch rule: which timer runs at which states, over a table that a side hands in; and the check of timers against it.
ghost use Rattle.std.specs.Prelude.{◌≡◌, get_or};
ghost use Rattle.link.specs.Tests.{below};
ghost use Rattle.link.specs.Names.{timers};
ghost use Rattle.link.specs.Watch.{runs, timer_ok, timer_good, state_ok, idle, seconds_ok, setting_ok};

use crate::moves::{IDLE, TIMERS};

// The module of each timer, the first and the last of its states, and the last state of EM at which it runs.
#[derive(Drop)]
#[derive(Clone, Copy)]
pub struct Watch {
    pub who: [u8; TIMERS],
    pub first: [u8; TIMERS],
    pub last: [u8; TIMERS],
    pub em: [u8; TIMERS],
}

fn state(at: [u8; 5], m: u8) -> u8
    ensures { result ≡ get_or at m 0 }
{
    at.get(m as usize).copied().unwrap_or(0)
}

// Whether timer t runs at the modules' states; a number past the last never does.
#[tactic(auto, unfolding(crate::specs::Watch::runs))]
fn watched(w: Watch, t: usize, at: [u8; 5]) -> bool
    ensures { result ≡ runs w t at }
{
    if TIMERS <= t {
        return false;
    }
    let s = state(at, w.who[t]);
    w.first[t] <= s && s <= w.last[t] && at[3] <= w.em[t]
}

#[tactic(auto, unfolding(crate::specs::Watch::timer_ok))]
fn timer_ok(run: bool, most: u32, left: u32) -> bool
    ensures { result ≡ timer_ok run most left }
{
    1 <= most
        && if run {
            1 <= left && left <= most
        } else {
            left == 0
        }
}

// Whether the running timers are those of the table, each with 1 to as many seconds left as a start loads.
pub fn timers_ok(w: Watch, at: [u8; 5], left: [u32; TIMERS], most: [u32; TIMERS]) -> bool
    ensures { result ≡ below timers (timer_good w at left most) }
{
    // With `all` a call in a program looks each timer up in the table, and `is_good` takes more than twice as many instructions.
    for t in 0..TIMERS {
        if !timer_ok(watched(w, t, at), most[t], left[t]) {
            return false;
        }
    }
    true
}

// Whether each module is in one of its states.
pub fn states_ok(tops: [u8; 5], at: [u8; 5]) -> bool
    ensures { result ≡ below 5 (state_ok tops at) }
{
    (0..5).all(|k| at[k] <= tops[k])
}

// Whether all four modules are IDLE.
#[tactic(auto, unfolding(crate::specs::Watch::idle))]
pub fn all_idle(at: [u8; 5]) -> bool
    ensures { result ≡ idle at }
{
    at[0] == IDLE && at[1] == IDLE && at[2] == IDLE && at[3] == IDLE
}

// Whether a setting is 1 to 86,400.
pub fn setting_ok(x: u32) -> bool
    ensures { result ≡ seconds_ok x }
{
    1 <= x && x <= 86400
}

// The same of every setting.
pub fn settings_ok(s: [u32; TIMERS]) -> bool
    ensures { result ≡ below timers (setting_ok s) }
{
    s.iter().all(|&x| setting_ok(x))
}
