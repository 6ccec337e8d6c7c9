// The link record and an answer as octets, and the calls on them, for a host that keeps them in its own memory.
#![tactic(auto)]

pub mod answer;
mod put;
pub mod record;
pub mod step;
