// Lists of actions: at most eight, in order.
ghost use Rattle.std.specs.Prelude.{◌≡◌, ◌+◌, ◌≤◌, [], ltb};
ghost use Rattle.link.specs.Names.{START, timers};
ghost use Rattle.link.specs.Tests.{pick};
ghost use Rattle.link.specs.Acts.{acts, pushed};

use crate::moves::NO_TIMER;

// The first n of the list; the others are 0.
#[derive(Drop)]
#[derive(Clone, Copy)]
pub struct Acts {
    pub n: usize,
    pub list: [u8; 8],
}

impl Acts {
    pub fn none() -> Acts
        ensures { result ≡ acts [] }
    {
        Acts { n: 0, list: [0; 8] }
    }

    // One action more; a full list stays as it is.
    #[tactic(auto, unfolding(crate::specs::Acts::pushed))]
    pub fn push(mut self, code: u8) -> Acts
        ensures { result ≡ pushed self code }
    {
        if self.n < 8 {
            self.list[self.n] = code;
            self.n += 1;
        }
        self
    }

    pub fn push_when(self, yes: bool, code: u8) -> Acts
        ensures { result ≡ pick yes (pushed self code) self }
    {
        if yes { self.push(code) } else { self }
    }

    // The entry of a timer; the number past the last stands for none.
    pub(crate) fn push_timer(self, base: u8, t: u8) -> Acts
        requires { base ≤ START }
        ensures { result ≡ pick (ltb t timers) (pushed self (base + t)) self }
    {
        if t < NO_TIMER {
            self.push(base + t)
        } else {
            self
        }
    }
}
