// What time does to the timers, and what stopping them all says.
ghost use Rattle.std.specs.Prelude.{◌≡◌, [], ◌-◌};
ghost use Rattle.link.specs.Names.{timers};
ghost use Rattle.link.specs.Tests.{below};
ghost use Rattle.link.specs.Acts.{acts, pushed_all};
ghost use Rattle.link.specs.Clock.{due, not_due, later, stops_of};

use crate::actions::*;
use crate::acts::Acts;
use crate::moves::TIMERS;

// The most seconds of one elapse.
pub const ELAPSE_MOST: u32 = 86400;

#[tactic(auto, unfolding(crate::specs::Clock::due))]
fn is_due(n: u32, left: u32) -> bool
    ensures { result ≡ due n left }
{
    1 <= left && left <= n
}

// Whether every running timer outlasts n seconds.
pub fn none_due(n: u32, left: [u32; TIMERS]) -> bool
    ensures { result ≡ below timers (not_due n left) }
{
    left.iter().all(|&seconds| !is_due(n, seconds))
}

// Each timer's seconds less n, down to 0.
pub fn after(n: u32, left: [u32; TIMERS]) -> [u32; TIMERS]
    ensures { result ≡ later n left }
{
    left.map(|seconds| seconds.saturating_sub(n))
}

// The stop entries of the running timers, in watch order.
pub fn stops(left: [u32; TIMERS]) -> Acts
    ensures { result ≡ pushed_all (acts []) (stops_of timers left) }
{
    let mut a = Acts::none();
    for t in 0..TIMERS {
        a = a.push_when(1 <= left[t], STOP + (t as u8));
    }
    a
}
