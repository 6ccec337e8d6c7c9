// Ground PDUs as numbers. Missing numbers count as 0; numbers that name nothing make a value that no writer takes.
ghost use Rattle.std.specs.Prelude.{◌≡◌};
ghost use Rattle.host_numbers.specs.UplinkNumbers.{flat_ground, flat_modify, flat_periodic, pair_of, scale_of, times_of, interval_of, periodic_at, ground_at};

use crate::changes::{changes_at, flat_changes};
use crate::copy::padded;
use crate::numbers::number;
use crate::places::*;
use pdu::uplink::Ground;
use pdu_parts::interval::Interval;
use pdu_parts::periodic::Periodic;

fn scale_of(i: Interval) -> u32
    ensures { result ≡ scale_of i }
{
    match i {
        Interval::Seconds(_) => 0,
        Interval::Minutes(_) => 1,
    }
}

fn times_of(i: Interval) -> u32
    ensures { result ≡ times_of i }
{
    match i {
        Interval::Seconds(n) | Interval::Minutes(n) => n,
    }
}

// A kind and the one number that goes with it.
fn pair(kind: u32, n: u32) -> [u32; G_NUMBERS]
    ensures { result ≡ pair_of kind n }
{
    padded(&[kind, n])
}

fn flat_modify(i: Interval) -> [u32; G_NUMBERS]
    ensures { result ≡ flat_modify i }
{
    padded(&[5, 0, scale_of(i), times_of(i)])
}

fn flat_periodic(a: Periodic) -> [u32; G_NUMBERS]
    ensures { result ≡ flat_periodic a }
{
    padded(&[
        6,
        a.elements,
        scale_of(a.interval),
        times_of(a.interval),
        a.address,
        a.profile,
        a.over_ground,
        a.air,
        a.weather,
    ])
}

pub fn flat_ground(g: Ground) -> [u32; G_NUMBERS]
    ensures { result ≡ flat_ground g }
{
    match g {
        Ground::CancelAll => pair(0, 0),
        Ground::CancelContract(n) => pair(1, n),
        Ground::CancelEmergencyAck => pair(2, 0),
        Ground::DemandContract(v) => pair(3, v),
        Ground::EventContract(a) => flat_changes(a),
        Ground::ModifyEmergency(i) => flat_modify(i),
        Ground::PeriodicContract(a) => flat_periodic(a),
        Ground::Abort(n) => pair(7, n),
    }
}

// A scale over 1 makes 0 seconds, which is out of range.
fn interval_of(scale: u32, n: u32) -> Interval
    ensures { result ≡ interval_of scale n }
{
    match scale {
        0 => Interval::Seconds(n),
        1 => Interval::Minutes(n),
        _ => Interval::Seconds(0),
    }
}

fn periodic_at(f: &[u32]) -> Periodic
    ensures { result ≡ periodic_at f.now }
{
    Periodic {
        interval: interval_of(number(f, G_SCALE), number(f, G_INTERVAL)),
        elements: number(f, G_WHAT),
        address: number(f, G_ADDRESS),
        profile: number(f, G_PROFILE),
        over_ground: number(f, G_GROUND_VECTOR),
        air: number(f, G_AIR_VECTOR),
        weather: number(f, G_WEATHER),
    }
}

// A kind over 7 makes an abort of reason 8, which is no request and is out of range.
pub fn ground_at(f: &[u32]) -> Ground
    ensures { result ≡ ground_at f.now }
{
    let kind = number(f, G_KIND);
    let n = number(f, G_WHAT);
    match kind {
        0 => Ground::CancelAll,
        1 => Ground::CancelContract(n),
        2 => Ground::CancelEmergencyAck,
        3 => Ground::DemandContract(n),
        4 => Ground::EventContract(changes_at(f)),
        5 => Ground::ModifyEmergency(interval_of(number(f, G_SCALE), number(f, G_INTERVAL))),
        6 => Ground::PeriodicContract(periodic_at(f)),
        7 => Ground::Abort(n),
        _ => Ground::Abort(8),
    }
}
