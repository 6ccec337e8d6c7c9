// The calls of a host in C, made from lines of text and answered in text.
#![tactic(auto)]

mod call;
mod fields;
pub mod line;
pub mod lines;
