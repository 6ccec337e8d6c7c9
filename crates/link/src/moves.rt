// What an event does: at most one timer stopped, an indication, a send and one timer started, in this order, and the next state of a module.
ghost use Rattle.std.specs.Prelude.{◌≡◌};
ghost use Rattle.link.specs.Tests.{pick};
ghost use Rattle.link.specs.Moves.{go, li_to, unlisted};

// How many timers there are, in watch order.
pub const TIMERS: usize = 10;

// The number that stands for none of the timers.
pub const NO_TIMER: u8 = TIMERS as u8;

// modules, in the order in which their states stand
pub const DC: u8 = 0;

pub const EC: u8 = 1;

pub const PC: u8 = 2;

pub const EM: u8 = 3;

pub const LI: u8 = 4;

// the state in which every module begins and ends
pub const IDLE: u8 = 0;

// the first event of each module behind DC
pub const OF_EC: u8 = 16;

pub const OF_PC: u8 = 32;

pub const OF_EM: u8 = 48;

// No module's: a request that none has, data that none lists.
pub const NO_REQUEST: u8 = 64;

pub const NO_DATA: u8 = 68;

// What comes of an event: a move that goes, a request that is refused, data that aborts.
pub const GOES: u8 = 0;

pub const REFUSES: u8 = 1;

pub const ABORTS: u8 = 3;

#[derive(Drop)]
#[derive(Clone, Copy)]
pub struct Move {
    pub fate: u8,
    pub stop: u8,
    pub ind: bool,
    pub send: bool,
    pub start: u8,
    pub who: u8,
    pub to: u8,
}

pub fn go(who: u8, to: u8, stop: u8, ind: bool, send: bool, start: u8) -> Move
    ensures { result ≡ go who to stop ind send start }
{
    Move {
        fate: GOES,
        stop,
        ind,
        send,
        start,
        who,
        to,
    }
}

// The link module's own move to a state.
pub fn li_to(k: u8) -> Move
    ensures { result ≡ li_to k }
{
    go(LI, k, NO_TIMER, false, false, NO_TIMER)
}

pub fn unlisted(kind: u8) -> Move
    ensures { result ≡ unlisted kind }
{
    let fate: u8 = if kind <= 3 { REFUSES } else { ABORTS };
    Move {
        fate,
        stop: NO_TIMER,
        ind: false,
        send: false,
        start: NO_TIMER,
        who: 0,
        to: 0,
    }
}

// One event for a report with the ack, another for a plain one.
pub fn by_ack(ack: bool, with: u8, plain: u8) -> u8
    ensures { result ≡ pick ack with plain }
{
    if ack { with } else { plain }
}
