// The presence bits of an event contract by name, the first that is sent as the highest (002, 3880). All are carried.
pub const LATERAL_CHANGE: u32 = 1024;

pub const RATE_CHANGE: u32 = 512;

pub const LEVEL_RANGE: u32 = 256;

pub const WAYPOINT_CHANGE: u32 = 128;

pub const AIR_SPEED_CHANGE: u32 = 64;

pub const GROUND_SPEED_CHANGE: u32 = 32;

pub const HEADING_CHANGE: u32 = 16;

pub const PROFILE_CHANGE: u32 = 8;

pub const MERIT_CHANGE: u32 = 4;

pub const TRACK_CHANGE: u32 = 2;

pub const LEVEL_CHANGE: u32 = 1;

pub const EVENT_BITS: u32 = 2047;
