// The parts of PDUs: position, time, merit and reports; lists; intervals and the periodic contract; acks and notices. A file holds types with their readers and writers.
#![tactic(auto)]

pub mod acked;
pub mod acks;
pub mod elements;
pub mod interval;
pub mod lists;
pub mod periodic;
pub mod position;
pub mod report;
mod spans;
pub mod time;
pub mod vectors;
