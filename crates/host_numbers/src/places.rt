// Where each number of a PDU stands: A of an aircraft PDU, G of a ground PDU. include/adsc.h says what each is.
pub const A_KIND: usize = 0;

pub const A_WHAT: usize = 1;

pub const A_DETAIL: usize = 2;

pub const A_COUNT: usize = 3;

pub const A_ELEMENTS: usize = 4;

pub const A_SOUTH: usize = 5;

pub const A_LATITUDE: usize = 6;

pub const A_LATITUDE_MINUTES: usize = 7;

pub const A_LATITUDE_TENTHS: usize = 8;

pub const A_WEST: usize = 9;

pub const A_LONGITUDE: usize = 10;

pub const A_LONGITUDE_MINUTES: usize = 11;

pub const A_LONGITUDE_TENTHS: usize = 12;

pub const A_LEVEL: usize = 13;

pub const A_YEAR: usize = 14;

pub const A_MONTH: usize = 15;

pub const A_DAY: usize = 16;

pub const A_HAS_SECONDS: usize = 17;

pub const A_HOURS: usize = 18;

pub const A_MINUTES: usize = 19;

pub const A_SECONDS: usize = 20;

pub const A_ACCURACY: usize = 21;

pub const A_UNITS: usize = 22;

pub const A_AVOIDANCE: usize = 23;

pub const A_ADDRESS: usize = 24;

pub const A_GROUND_PARTS: usize = 25;

pub const A_TRACK: usize = 26;

pub const A_GROUND_SPEED: usize = 27;

pub const A_GROUND_RATE: usize = 28;

pub const A_AIR_PARTS: usize = 29;

pub const A_HEADING: usize = 30;

pub const A_AIR_SPEED: usize = 31;

pub const A_MACH: usize = 32;

pub const A_IAS: usize = 33;

pub const A_AIR_RATE: usize = 34;

pub const A_WEATHER_PARTS: usize = 35;

pub const A_WIND_SPEED: usize = 36;

pub const A_WIND_DIRECTION: usize = 37;

pub const A_TEMPERATURE: usize = 38;

pub const A_TURBULENCE: usize = 39;

// How many numbers an aircraft PDU has.
pub const A_NUMBERS: usize = 40;

pub const G_KIND: usize = 0;

pub const G_WHAT: usize = 1;

pub const G_SCALE: usize = 2;

pub const G_INTERVAL: usize = 3;

pub const G_ADDRESS: usize = 4;

pub const G_PROFILE: usize = 5;

pub const G_GROUND_VECTOR: usize = 6;

pub const G_AIR_VECTOR: usize = 7;

pub const G_WEATHER: usize = 8;

pub const G_LATERAL: usize = 9;

pub const G_RATE: usize = 10;

pub const G_CEILING: usize = 11;

pub const G_FLOOR: usize = 12;

pub const G_AIR_SPEED: usize = 13;

pub const G_AIR_SPEED_CHANGE: usize = 14;

pub const G_GROUND_SPEED: usize = 15;

pub const G_HEADING: usize = 16;

pub const G_EXTENDED_PROFILE: usize = 17;

pub const G_EXTENDED_PROFILE_COUNT: usize = 18;

pub const G_TRACK: usize = 19;

pub const G_LEVEL: usize = 20;

// How many numbers a ground PDU has.
pub const G_NUMBERS: usize = 21;
