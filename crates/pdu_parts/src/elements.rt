// Presence bits by name, the first that is sent as the highest; which of them are carried.

// A report: "7 presence bits (aircraft address, projected profile, ground vector, air vector, weather, short-term intent, extended profile)".
pub const ADDRESS: u32 = 64;

pub const PROFILE: u32 = 32;

pub const GROUND_VECTOR: u32 = 16;

pub const AIR_VECTOR: u32 = 8;

pub const WEATHER: u32 = 4;

pub const REPORT_BITS: u32 = 127;

pub const REPORT_CARRIED: u32 = ADDRESS + GROUND_VECTOR + AIR_VECTOR + WEATHER;

// An emergency report: "2 presence bits (address, ground vector)".
pub const EMERGENCY_ADDRESS: u32 = 2;

pub const EMERGENCY_GROUND_VECTOR: u32 = 1;

pub const EMERGENCY_BITS: u32 = 3;

pub const EMERGENCY_CARRIED: u32 = EMERGENCY_ADDRESS + EMERGENCY_GROUND_VECTOR;

// A ground vector: "3 presence bits" (002, 4055).
pub const TRACK: u32 = 4;

pub const GROUND_SPEED: u32 = 2;

pub const GROUND_RATE: u32 = 1;

// An air vector: "3 presence bits" (002, 3989).
pub const HEADING: u32 = 4;

pub const AIR_SPEED: u32 = 2;

pub const AIR_RATE: u32 = 1;

pub const VECTOR_BITS: u32 = 7;

// Weather: "4 presence bits" (002, 4109).
pub const WIND_SPEED: u32 = 8;

pub const WIND_DIRECTION: u32 = 4;

pub const TEMPERATURE: u32 = 2;

pub const TURBULENCE: u32 = 1;

pub const WEATHER_BITS: u32 = 15;

// A demand contract: "as in the report; the first five NULL, the last two not carried".
pub const DEMAND_CARRIED: u32 = ADDRESS + PROFILE + GROUND_VECTOR + AIR_VECTOR + WEATHER;

// A periodic contract: "8 presence bits (interval ..; five moduli .. in the report's order; two not carried)".
pub const INTERVAL: u32 = 128;

pub const PERIODIC_BITS: u32 = 255;

pub const PERIODIC_CARRIED: u32 = INTERVAL + DEMAND_CARRIED;
