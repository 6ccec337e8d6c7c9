// The flight log for a host in C: recorded in a block that it lends, and played on the link record that it keeps.
#![tactic(auto)]

pub mod playing;
pub mod recording;
