// The flight log at the bench: the trace of a log's records, from standard input to standard output.
#![tactic(auto)]

pub mod player;
pub mod show;
