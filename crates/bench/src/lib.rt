// The script bench: the answer to each line, the trace of a script, its input and output.
#![tactic(auto)]

pub mod player;
pub mod reply;
pub mod trace;
