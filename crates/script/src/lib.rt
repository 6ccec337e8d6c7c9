// What the scripts of both sides share: what follows a word of a line, an answer's entries as text, the trace over any box.
#![tactic(auto)]

pub mod answer;
pub mod line;
pub mod room;
pub mod trace;
