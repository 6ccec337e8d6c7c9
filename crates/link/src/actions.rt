// Entries of an action list. What goes to the dialogue service is 1 to 4; 1 and 3 have their names on each side. A stop and a start have the timer's number added.
pub const DATA_REQUEST: u8 = 2;

pub const ABORT_REQUEST: u8 = 4;

pub const IND: u8 = 5;

pub const ABORT_IND: u8 = 6;

pub const PEER_ABORT_IND: u8 = 7;

pub const STOP: u8 = 16;

pub const START: u8 = 32;
