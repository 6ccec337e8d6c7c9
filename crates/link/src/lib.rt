// The machinery of a link: moves, lists of actions, the executor, the watch rule, the clock. Knows no table, no record and no PDU.
#![tactic(auto)]

pub mod actions;
pub mod acts;
pub mod clock;
pub mod executor;
pub mod moves;
pub mod watch;
