// The numbers of states, of the one timer and of events, under the names of 000 and 002.

// states
pub const DC_PENDING: u8 = 1;

pub const DC_ACTIVE: u8 = 2;

pub const PENDING: u8 = 1;

pub const ACTIVE: u8 = 2;

pub const ACTIVE_PENDING: u8 = 3;

pub const EM_ACTIVE: u8 = 1;

pub const MODIFY: u8 = 2;

pub const CANCEL: u8 = 3;

pub const LI_IDLE: u8 = 0;

pub const LI_START: u8 = 1;

pub const LI_ACTIVE: u8 = 2;

// the last state of each module
pub const TOPS: [u8; 5] = [DC_ACTIVE, ACTIVE_PENDING, ACTIVE_PENDING, CANCEL, LI_ACTIVE];

// the one timer
pub const EM3: u8 = 0;

// events of DC
pub const DC_NEGATIVE: u8 = 0;

pub const DC_NONCOMPLIANCE: u8 = 1;

pub const DC_REPORT_ACK: u8 = 2;

pub const DC_REPORT: u8 = 3;

pub const DC_CONTRACT: u8 = 4;

// events of EC and PC
pub const AGREE: u8 = 0;

pub const NEGATIVE: u8 = 1;

pub const REPORT_ACK: u8 = 2;

pub const REPORT: u8 = 3;

pub const CONTRACT: u8 = 4;

pub const CANCEL_CONTRACT: u8 = 5;

// events of EM
pub const EM_REPORT: u8 = 0;

pub const EM_REPORT_ACK: u8 = 1;

pub const EM_CANCEL: u8 = 2;

pub const EM_REFUSE: u8 = 3;

pub const EM_ACK: u8 = 4;

pub const EM_MODIFY: u8 = 5;
