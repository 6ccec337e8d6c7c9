// Both ends of a link and what is under way between them: what an end's call does to them, and what comes of a letter.
#![tactic(auto)]

pub mod air_turn;
pub mod ground_turn;
pub mod state;
