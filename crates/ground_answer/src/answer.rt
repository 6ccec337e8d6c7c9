// What a call answers.
ghost use Rattle.std.specs.Prelude.{◌≡◌};
ghost use Rattle.ground_answer.specs.Answers.{refusal, tells, quietly};

use crate::record::{Link, follow};
use crate::sent::{Sent, nothing};
use link::acts::Acts;
use link::executor::Step;

// Entries of an action list beside link's own.
pub const START_REQUEST: u8 = 1;

pub const END_REQUEST: u8 = 3;

pub const LATE: u8 = 8;

// `refusal` is 0 for a call that is accepted. `reason` is that of an abort indication. `sent` goes with the first request among the actions.
#[derive(Drop)]
#[derive(Clone, Copy)]
pub struct Said {
    pub refusal: u8,
    pub reason: u32,
    pub acts: Acts,
    pub sent: Sent,
}

#[derive(Drop)]
pub struct Answer {
    pub link: Link,
    pub said: Said,
}

// The link stays, and nothing is done.
pub fn refuse(l: Link, number: u8) -> Answer
    ensures { result ≡ refusal l number }
{
    Answer {
        link: l,
        said: Said {
            refusal: number,
            reason: 0,
            acts: Acts::none(),
            sent: nothing(),
        },
    }
}

// An accepted call, by the step that it makes.
pub fn tell(l: Link, s: Step, reason: u32, sent: Sent) -> Answer
    ensures { result ≡ tells l s reason sent }
{
    Answer {
        link: follow(l, s),
        said: Said {
            refusal: 0,
            reason,
            acts: s.acts,
            sent,
        },
    }
}

// With no abort shown and no PDU.
pub fn change(l: Link, s: Step) -> Answer
    ensures { result ≡ quietly l s }
{
    tell(l, s, 0, nothing())
}
