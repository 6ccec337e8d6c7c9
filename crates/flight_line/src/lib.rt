// A line of a flight script: what the users do, what passes at both ends, what comes and what is lost; and the answer to it as text.
#![tactic(auto)]

pub mod air_user;
pub mod both;
pub mod ground_user;
pub mod line;
pub mod user;
