// The numbers of states, timers and events, under the names of 01.

// states
pub const DC_PENDING: u8 = 1;

pub const DC_ACTIVE: u8 = 2;

pub const START_PENDING: u8 = 1;

pub const PENDING: u8 = 2;

pub const ACTIVE: u8 = 3;

pub const CANCEL: u8 = 4;

pub const EM_ACTIVE: u8 = 1;

pub const MODIFY: u8 = 2;

pub const LI_IDLE: u8 = 0;

pub const LI_START: u8 = 1;

pub const LI_ACTIVE: u8 = 2;

pub const LI_END: u8 = 3;

// the last state of each module
pub const TOPS: [u8; 5] = [DC_ACTIVE, CANCEL, CANCEL, MODIFY, LI_END];

// timers, in watch order
pub const DC1: u8 = 0;

pub const DC2: u8 = 1;

pub const EC1: u8 = 2;

pub const EC2: u8 = 3;

pub const PC1: u8 = 4;

pub const PC2: u8 = 5;

pub const PC3: u8 = 6;

pub const EM1: u8 = 7;

pub const EM2: u8 = 8;

pub const LI1: u8 = 9;

// events of DC
pub const REQUEST: u8 = 0;

pub const DC_REPORT_ACK: u8 = 4;

pub const DC_REPORT: u8 = 5;

pub const DC_NEGATIVE: u8 = 6;

pub const DC_NONCOMPLIANCE: u8 = 7;

// events of EC and PC
pub const CANCEL_REQUEST: u8 = 1;

pub const REPORT_ACK: u8 = 4;

pub const REPORT: u8 = 5;

pub const POSITIVE: u8 = 6;

pub const NONCOMPLIANCE: u8 = 8;

pub const CANCELLED: u8 = 9;

pub const NEGATIVE: u8 = 10;

// events of EM
pub const MODIFY_REQUEST: u8 = 0;

pub const EM_REPORT: u8 = 4;

pub const EM_REPORT_ACK: u8 = 5;

pub const EM_POSITIVE: u8 = 7;

pub const EM_CANCEL: u8 = 9;
