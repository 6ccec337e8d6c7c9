// The calls on an air link: what the user requests and answers, what comes from the ground, aborts from below; every call under one name, and the promises.
#![tactic(auto)]

pub mod arrivals;
pub mod call;
pub mod endings;
pub mod requests;
