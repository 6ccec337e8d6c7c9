// A PDU as a line for a person, in the words of 01, 002 and 003; lines of PDUs from standard input, an answer for each.
#![tactic(auto)]

mod air;
mod code;
mod ground;
mod line;
pub mod lines;
mod lists;
mod page;
mod rows;
mod tell;
mod ways;
mod words;
