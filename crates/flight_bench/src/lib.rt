// The bench of both ends: the answer to each line with its number, the states of both at the end, input and output.
#![tactic(auto)]

pub mod ending;
pub mod player;
pub mod trace;
