// The calls on a link: what the user requests, data from the aircraft, what else comes from below; every call under one name, and the promises.
#![tactic(auto)]

pub mod arrivals;
pub mod call;
pub mod endings;
pub mod requests;
