// Ground vector, air vector and weather: elements of a report, each with presence bits of its own. A vector with nothing in it is one.
ghost use Rattle.std.specs.Prelude.{◌≡◌, not, eqb};
ghost use Rattle.per.specs.Formats.{signed};
ghost use Rattle.pdu_parts.specs.Vectors.{none, ground_vector_c, no_ground_vector, air_speed_c, no_speed, air_vector_c, no_air_vector, weather_c, no_weather};

use crate::elements::*;
use per::cursor::{Cursor, Read, Signed, present};
use per::part::{Element, Part};
use per::pen::Pen;

// Track in tenths of a degree, speed in knots, vertical rate in tens of feet a minute.
#[derive(Drop)]
#[derive(Clone, Copy)]
pub struct GroundVector {
    pub elements: u32,
    pub track: u32,
    pub speed: Signed,
    pub rate: Signed,
}

// Of kind 0 Mach in thousandths, of kind 1 indicated air speed in knots, of kind 2 both.
#[derive(Drop)]
#[derive(Clone, Copy)]
pub struct AirSpeed {
    pub kind: u32,
    pub mach: u32,
    pub ias: u32,
}

// Heading and rate as a ground vector's track and rate.
#[derive(Drop)]
#[derive(Clone, Copy)]
pub struct AirVector {
    pub elements: u32,
    pub heading: u32,
    pub speed: AirSpeed,
    pub rate: Signed,
}

// Wind in knots and degrees, temperature in quarters of a degree Celsius.
#[derive(Drop)]
#[derive(Clone, Copy)]
pub struct Weather {
    pub elements: u32,
    pub speed: u32,
    pub direction: u32,
    pub temperature: Signed,
    pub turbulence: u32,
}

// A number of -BELOW..TOP.
pub struct SignedIn<const BELOW: u16, const TOP: u16> {}

pub type GroundSpeed = SignedIn<50, 2200>;

pub type Rate = SignedIn<3000, 3000>;

pub type Temperature = SignedIn<400, 400>;

impl<const BELOW: u16, const TOP: u16> Part for SignedIn<BELOW, TOP> {
    type Value = Signed;

    ghost codec = { signed BELOW TOP };

    fn read(c: Cursor, s: &[u8]) -> Read<Signed> {
        c.signed(s, BELOW, TOP)
    }

    fn write(p: Pen, out: &mut [u8; 128], a: Signed) -> Pen {
        p.signed(out, a, BELOW, TOP)
    }
}

impl<const BELOW: u16, const TOP: u16> Element for SignedIn<BELOW, TOP> {
    ghost none = { none };

    fn none() -> Signed {
        Signed { number: 0 }
    }
}

impl Part for GroundVector {
    type Value = GroundVector;

    ghost codec = { ground_vector_c };

    fn read(c: Cursor, s: &[u8]) -> Read<GroundVector> {
        let bits = c.mask(s, VECTOR_BITS, VECTOR_BITS, false);
        let v = bits.value;
        let track = bits.next.num_if(s, present(v, TRACK), 1, 3600);
        let speed = GroundSpeed::read_if(track.next, s, present(v, GROUND_SPEED));
        let rate = Rate::read_if(speed.next, s, present(v, GROUND_RATE));
        let value = GroundVector {
            elements: v,
            track: track.value,
            speed: speed.value,
            rate: rate.value,
        };
        Read {
            value,
            next: rate.next,
        }
    }

    fn write(p: Pen, out: &mut [u8; 128], a: GroundVector) -> Pen {
        let v = a.elements;
        let p = p.mask(out, v, VECTOR_BITS, VECTOR_BITS, false);
        let p = p.num_if(out, present(v, TRACK), a.track, 1, 3600);
        let p = GroundSpeed::write_if(p, out, present(v, GROUND_SPEED), a.speed);
        Rate::write_if(p, out, present(v, GROUND_RATE), a.rate)
    }
}

impl Element for GroundVector {
    ghost none = { no_ground_vector };

    fn none() -> GroundVector {
        GroundVector {
            elements: 0,
            track: 0,
            speed: GroundSpeed::none(),
            rate: Rate::none(),
        }
    }
}

// An air speed has Mach, or not.
fn has_mach(kind: u32) -> bool
    ensures { result ≡ not (eqb kind 1) }
{
    kind != 1
}

fn has_ias(kind: u32) -> bool
    ensures { result ≡ not (eqb kind 0) }
{
    kind != 0
}

impl Part for AirSpeed {
    type Value = AirSpeed;

    ghost codec = { air_speed_c };

    fn read(c: Cursor, s: &[u8]) -> Read<AirSpeed> {
        let kind = c.index(s, 2);
        let mach = kind.next.num_if(s, has_mach(kind.value), 500, 4000);
        let ias = mach.next.num_if(s, has_ias(kind.value), 0, 1100);
        let value = AirSpeed {
            kind: kind.value,
            mach: mach.value,
            ias: ias.value,
        };
        Read {
            value,
            next: ias.next,
        }
    }

    fn write(p: Pen, out: &mut [u8; 128], a: AirSpeed) -> Pen {
        let p = p.index(out, a.kind, 2);
        let p = p.num_if(out, has_mach(a.kind), a.mach, 500, 4000);
        p.num_if(out, has_ias(a.kind), a.ias, 0, 1100)
    }
}

impl Element for AirSpeed {
    ghost none = { no_speed };

    fn none() -> AirSpeed {
        AirSpeed {
            kind: 0,
            mach: 0,
            ias: 0,
        }
    }
}

impl Part for AirVector {
    type Value = AirVector;

    ghost codec = { air_vector_c };

    fn read(c: Cursor, s: &[u8]) -> Read<AirVector> {
        let bits = c.mask(s, VECTOR_BITS, VECTOR_BITS, false);
        let v = bits.value;
        let heading = bits.next.num_if(s, present(v, HEADING), 1, 3600);
        let speed = AirSpeed::read_if(heading.next, s, present(v, AIR_SPEED));
        let rate = Rate::read_if(speed.next, s, present(v, AIR_RATE));
        let value = AirVector {
            elements: v,
            heading: heading.value,
            speed: speed.value,
            rate: rate.value,
        };
        Read {
            value,
            next: rate.next,
        }
    }

    fn write(p: Pen, out: &mut [u8; 128], a: AirVector) -> Pen {
        let v = a.elements;
        let p = p.mask(out, v, VECTOR_BITS, VECTOR_BITS, false);
        let p = p.num_if(out, present(v, HEADING), a.heading, 1, 3600);
        let p = AirSpeed::write_if(p, out, present(v, AIR_SPEED), a.speed);
        Rate::write_if(p, out, present(v, AIR_RATE), a.rate)
    }
}

impl Element for AirVector {
    ghost none = { no_air_vector };

    fn none() -> AirVector {
        AirVector {
            elements: 0,
            heading: 0,
            speed: AirSpeed::none(),
            rate: Rate::none(),
        }
    }
}

impl Part for Weather {
    type Value = Weather;

    ghost codec = { weather_c };

    fn read(c: Cursor, s: &[u8]) -> Read<Weather> {
        let bits = c.mask(s, WEATHER_BITS, WEATHER_BITS, false);
        let v = bits.value;
        let speed = bits.next.num_if(s, present(v, WIND_SPEED), 0, 300);
        let direction = speed.next.num_if(s, present(v, WIND_DIRECTION), 1, 360);
        let temperature = Temperature::read_if(direction.next, s, present(v, TEMPERATURE));
        let turbulence = temperature.next.num_if(s, present(v, TURBULENCE), 0, 15);
        let value = Weather {
            elements: v,
            speed: speed.value,
            direction: direction.value,
            temperature: temperature.value,
            turbulence: turbulence.value,
        };
        Read {
            value,
            next: turbulence.next,
        }
    }

    fn write(p: Pen, out: &mut [u8; 128], a: Weather) -> Pen {
        let v = a.elements;
        let p = p.mask(out, v, WEATHER_BITS, WEATHER_BITS, false);
        let p = p.num_if(out, present(v, WIND_SPEED), a.speed, 0, 300);
        let p = p.num_if(out, present(v, WIND_DIRECTION), a.direction, 1, 360);
        let p = Temperature::write_if(p, out, present(v, TEMPERATURE), a.temperature);
        p.num_if(out, present(v, TURBULENCE), a.turbulence, 0, 15)
    }
}

impl Element for Weather {
    ghost none = { no_weather };

    fn none() -> Weather {
        Weather {
            elements: 0,
            speed: 0,
            direction: 0,
            temperature: Temperature::none(),
            turbulence: 0,
        }
    }
}
