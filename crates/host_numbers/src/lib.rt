// PDUs as flat lists of numbers, for a host that has no enums, and back. Missing numbers count as 0.
#![tactic(auto)]

mod changes;
pub mod copy;
pub mod downlink;
pub mod numbers;
pub mod places;
pub mod reports;
pub mod uplink;
mod vectors;
