// The event contract: what it asks to be told of, eleven elements with their reader and their writer.
#![tactic(auto)]

pub mod changes;
pub mod elements;
