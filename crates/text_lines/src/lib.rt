// Lines of octets: gathered from pieces of any size, read from standard input, their answers written out as the page fills.
#![tactic(auto)]

pub mod gather;
pub mod input;
