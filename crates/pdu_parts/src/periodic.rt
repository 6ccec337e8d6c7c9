// The periodic contract.
ghost use Rattle.std.specs.Prelude.{◌≡◌, ◌≤◌};
ghost use Rattle.pdu_parts.specs.Interval.{sent_bits};
ghost use Rattle.pdu_parts.specs.Periodic.{periodic_c};
ghost use Rattle.pdu_parts.specs.Ones.{periodic_count};

use crate::elements::*;
use crate::interval::Interval;
use per::cursor::{Cursor, Read, present};
use per::part::{Element, Part};
use per::pen::Pen;
use refusals::Refusal;

// `elements` are the presence bits of the moduli, in the report's order; whether the interval is sent follows from it.
#[derive(Drop)]
#[derive(Clone, Copy)]
pub struct Periodic {
    pub interval: Interval,
    pub elements: u32,
    pub address: u32,
    pub profile: u32,
    pub over_ground: u32,
    pub air: u32,
    pub weather: u32,
}

// The presence bits as they are sent.
fn bits_of(five: bool, elements: u32) -> u32
    requires { elements ≤ 127 }
    ensures { result ≡ sent_bits five elements }
{
    if five { elements } else { INTERVAL + elements }
}

impl Part for Periodic {
    type Value = Periodic;

    ghost codec = { periodic_c };

    fn read(c: Cursor, s: &[u8]) -> Read<Periodic> {
        let bits = c.mask(s, PERIODIC_BITS, PERIODIC_CARRIED, false);
        let v = bits.value;
        let interval = Interval::read_if(bits.next, s, present(v, INTERVAL));
        let address = interval.next.num_if(s, present(v, ADDRESS), 1, 255);
        let profile = address.next.num_if(s, present(v, PROFILE), 1, 255);
        let over_ground = profile.next.num_if(s, present(v, GROUND_VECTOR), 1, 255);
        let air = over_ground.next.num_if(s, present(v, AIR_VECTOR), 1, 255);
        let weather = air.next.num_if(s, present(v, WEATHER), 1, 255);
        let value = Periodic {
            interval: interval.value,
            elements: v % INTERVAL,
            address: address.value,
            profile: profile.value,
            over_ground: over_ground.value,
            air: air.value,
            weather: weather.value,
        };
        Read {
            value,
            next: weather.next,
        }
    }

    fn write(p: Pen, out: &mut [u8; 128], a: Periodic) -> Pen {
        if REPORT_BITS < a.elements {
            return p.refuse(Refusal::OutOfRange.number());
        }
        let v = bits_of(a.interval.is_five(), a.elements);
        let p = p.mask(out, v, PERIODIC_BITS, PERIODIC_CARRIED, false);
        let p = Interval::write_if(p, out, present(v, INTERVAL), a.interval);
        let p = p.num_if(out, present(v, ADDRESS), a.address, 1, 255);
        let p = p.num_if(out, present(v, PROFILE), a.profile, 1, 255);
        let p = p.num_if(out, present(v, GROUND_VECTOR), a.over_ground, 1, 255);
        let p = p.num_if(out, present(v, AIR_VECTOR), a.air, 1, 255);
        p.num_if(out, present(v, WEATHER), a.weather, 1, 255)
    }
}

// How many elements it asks for: the ones of the presence bits that are sent.
pub fn count_periodic(a: Periodic) -> u32
    ensures { result ≡ periodic_count a }
{
    u32::count_ones(bits_of(a.interval.is_five(), a.elements % INTERVAL))
}
