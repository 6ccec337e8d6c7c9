// What DC, EC, PC, EM and LI of the aircraft do at an event, and the watch table with its one timer. Knows no PDU and no link record.
#![tactic(auto)]

pub mod decide;
pub mod names;
pub mod watch;
