// What is under way comes to the other end, or is thrown away, and a line says what came of each.
#![tactic(auto)]

pub mod answers;
pub mod carry;
pub mod hear;
