// The one executor of moves: stop, indication, send, start, and the next state. Moves of one call are performed one after the other.
ghost use Rattle.std.specs.Prelude.{◌≡◌, set};
ghost use Rattle.link.specs.Step.{performed, begun, added, stopped, stopped_then, aborted_all};

use crate::actions::*;
use crate::acts::Acts;
use crate::clock::stops;
use crate::moves::{IDLE, Move, TIMERS};

// Seconds left in watch order, the modules' states, and what was done, in order.
#[derive(Drop)]
#[derive(Clone, Copy)]
pub struct Step {
    pub left: [u32; TIMERS],
    pub at: [u8; 5],
    pub acts: Acts,
}

// A number past the last names no place, and nothing changes.
fn put<T: Copy>(list: &mut [T], place: u8, value: T)
    ensures { list.new ≡ set list.old place value }
{
    let i = place as usize;
    if i < list.len() {
        list[i] = value;
    }
}

fn put_state(mut at: [u8; 5], who: u8, to: u8) -> [u8; 5]
    ensures { result ≡ set at who to }
{
    put(&mut at, who, to);
    at
}

impl Step {
    pub fn begin(at: [u8; 5], left: [u32; TIMERS]) -> Step
        ensures { result ≡ begun at left }
    {
        let acts = Acts::none();
        Step { left, at, acts }
    }

    // A move that goes; `most` is what a start loads, `send` the entry for what the move sends.
    pub fn perform(self, m: Move, most: [u32; TIMERS], send: u8) -> Step
        ensures { result ≡ performed self m most send }
    {
        let full = most.get(m.start as usize).copied().unwrap_or(0);
        let mut left = self.left;
        put(&mut left, m.stop, 0);
        put(&mut left, m.start, full);
        Step {
            left,
            at: put_state(self.at, m.who, m.to),
            acts: self
                .acts
                .push_timer(STOP, m.stop)
                .push_when(m.ind, IND)
                .push_when(m.send, send)
                .push_timer(START, m.start),
        }
    }

    // An entry of another kind after what was done.
    pub fn add(self, entry: u8) -> Step
        ensures { result ≡ added self entry }
    {
        Step {
            acts: self.acts.push(entry),
            ..self
        }
    }

    // Everything stopped and said so, every module IDLE, the link module at li.
    pub fn stop_all(left: [u32; TIMERS], li: u8) -> Step
        ensures { result ≡ stopped li left }
    {
        Step {
            left: [0; TIMERS],
            at: [0, 0, 0, 0, li],
            acts: stops(left),
        }
    }

    // The stops and one entry, all IDLE.
    pub fn stop_then(left: [u32; TIMERS], entry: u8) -> Step
        ensures { result ≡ stopped_then entry left }
    {
        Step::stop_all(left, IDLE).add(entry)
    }

    // The stops, abort request, abort indication, all IDLE.
    pub fn abort_all(left: [u32; TIMERS]) -> Step
        ensures { result ≡ aborted_all left }
    {
        Step::stop_then(left, ABORT_REQUEST).add(ABORT_IND)
    }
}
