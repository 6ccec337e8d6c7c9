// A line of an air script: the call that it makes, and the answer to it as text.
#![tactic(auto)]

pub mod answer;
pub mod line;
