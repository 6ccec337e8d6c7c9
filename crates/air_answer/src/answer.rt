// What a call answers.
ghost use Rattle.std.specs.Prelude.{◌≡◌};
ghost use Rattle.air_answer.specs.Answers.{refusal, tells};

use crate::record::{AirLink, follow};
use crate::sent::{Sent, nothing};
use link::acts::Acts;
use link::executor::Step;

// Entries of an action list beside link's own.
pub const START_RESPONSE: u8 = 1;

pub const END_RESPONSE: u8 = 3;

// `refusal` is 0 for a call that is accepted. `reason` is that of an abort indication. `sent` goes with the first of 1 to 4 among the actions.
#[derive(Drop)]
#[derive(Clone, Copy)]
pub struct Said {
    pub refusal: u8,
    pub reason: u32,
    pub acts: Acts,
    pub sent: Sent,
}

#[derive(Drop)]
pub struct Answer {
    pub link: AirLink,
    pub said: Said,
}

// The link stays, and nothing is done.
pub fn refuse(l: AirLink, number: u8) -> Answer
    ensures { result ≡ refusal l number }
{
    Answer {
        link: l,
        said: Said {
            refusal: number,
            reason: 0,
            acts: Acts::none(),
            sent: nothing(),
        },
    }
}

// An accepted call, by the step that it makes.
pub fn tell(l: AirLink, s: Step, reason: u32, sent: Sent) -> Answer
    ensures { result ≡ tells l s reason sent }
{
    Answer {
        link: follow(l, s),
        said: Said {
            refusal: 0,
            reason,
            acts: s.acts,
            sent,
        },
    }
}
