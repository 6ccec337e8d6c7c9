// The flight log of a script: a record for each line whose call is accepted, packed into blocks.
#![tactic(auto)]

pub mod line;
pub mod recorder;
