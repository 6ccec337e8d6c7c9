// The link record, and what a call answers: which event a PDU is, the octets of a PDU that goes, refusals, the abort rule, the clock, a new link.
#![tactic(auto)]

pub mod abort;
pub mod answer;
pub mod clock;
pub mod events;
pub mod fresh;
pub mod record;
pub mod sent;
