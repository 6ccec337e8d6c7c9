// What DC, EC, PC, EM and LI do at an event, the watch table, and the intervals of a periodic contract. Knows no PDU and no link record.
#![tactic(auto)]

pub mod decide;
pub mod intervals;
pub mod names;
pub mod watch;
