// Playing the flight log: what a record of it asks and answers, and a block played as a whole.
#![tactic(auto)]

pub mod block;
pub mod record;
