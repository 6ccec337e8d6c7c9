// Ground vector, air vector and weather among the numbers of an aircraft PDU, behind those of the report.
ghost use Rattle.std.specs.Prelude.{◌≡◌};
ghost use Rattle.std.proofs.lemmas.List.Edits.{sets};
ghost use Rattle.host_numbers.specs.Places.{A-GROUND-PARTS, A-AIR-PARTS, A-WEATHER-PARTS};
ghost use Rattle.host_numbers.specs.VectorNumbers.{flat_ground_vector, flat_air_vector, flat_weather, ground_vector_at, air_vector_at, weather_at};

use crate::numbers::{complement, number, signed_at};
use crate::places::*;
use pdu_parts::vectors::{AirSpeed, AirVector, GroundVector, Weather};

pub(crate) fn with_ground(mut f: [u32; A_NUMBERS], a: GroundVector) -> [u32; A_NUMBERS]
    ensures { result ≡ sets f A-GROUND-PARTS (flat_ground_vector a) }
{
    f[A_GROUND_PARTS] = a.elements;
    f[A_TRACK] = a.track;
    f[A_GROUND_SPEED] = complement(a.speed);
    f[A_GROUND_RATE] = complement(a.rate);
    f
}

pub(crate) fn with_air(mut f: [u32; A_NUMBERS], a: AirVector) -> [u32; A_NUMBERS]
    ensures { result ≡ sets f A-AIR-PARTS (flat_air_vector a) }
{
    f[A_AIR_PARTS] = a.elements;
    f[A_HEADING] = a.heading;
    f[A_AIR_SPEED] = a.speed.kind;
    f[A_MACH] = a.speed.mach;
    f[A_IAS] = a.speed.ias;
    f[A_AIR_RATE] = complement(a.rate);
    f
}

pub(crate) fn with_weather(mut f: [u32; A_NUMBERS], a: Weather) -> [u32; A_NUMBERS]
    ensures { result ≡ sets f A-WEATHER-PARTS (flat_weather a) }
{
    f[A_WEATHER_PARTS] = a.elements;
    f[A_WIND_SPEED] = a.speed;
    f[A_WIND_DIRECTION] = a.direction;
    f[A_TEMPERATURE] = complement(a.temperature);
    f[A_TURBULENCE] = a.turbulence;
    f
}

pub(crate) fn ground_vector_at(f: &[u32]) -> GroundVector
    ensures { result ≡ ground_vector_at f.now }
{
    GroundVector {
        elements: number(f, A_GROUND_PARTS),
        track: number(f, A_TRACK),
        speed: signed_at(f, A_GROUND_SPEED),
        rate: signed_at(f, A_GROUND_RATE),
    }
}

pub(crate) fn air_vector_at(f: &[u32]) -> AirVector
    ensures { result ≡ air_vector_at f.now }
{
    AirVector {
        elements: number(f, A_AIR_PARTS),
        heading: number(f, A_HEADING),
        speed: AirSpeed {
            kind: number(f, A_AIR_SPEED),
            mach: number(f, A_MACH),
            ias: number(f, A_IAS),
        },
        rate: signed_at(f, A_AIR_RATE),
    }
}

pub(crate) fn weather_at(f: &[u32]) -> Weather
    ensures { result ≡ weather_at f.now }
{
    Weather {
        elements: number(f, A_WEATHER_PARTS),
        speed: number(f, A_WIND_SPEED),
        direction: number(f, A_WIND_DIRECTION),
        temperature: signed_at(f, A_TEMPERATURE),
        turbulence: number(f, A_TURBULENCE),
    }
}
