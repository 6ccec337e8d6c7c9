// A report as 40 numbers, with the numbers that stand before it. Missing numbers count as 0; numbers that name nothing make a value that no writer takes.
ghost use Rattle.std.specs.Prelude.{◌≡◌, ◌++◌, replicate};
ghost use Rattle.host_numbers.specs.ReportNumbers.{fix_numbers, flat_report, accuracy_at, fix_at, report_at};

use crate::copy::padded;
use crate::numbers::{bit, complement, number, number_by, signed_at, truth_at};
use crate::places::*;
use crate::vectors::*;
use pdu_parts::position::{Angle, Position};
use pdu_parts::report::{Fix, Report};
use pdu_parts::time::{Merit, Time};

fn fix_numbers(kind: u32, ack: bool, event: u32, elements: u32, x: Fix, address: u32) -> [u32; 25]
    ensures { result ≡ fix_numbers kind ack event elements x address }
{
    let la = x.position.latitude;
    let lo = x.position.longitude;
    let t = x.time;
    let m = x.merit;
    [
        kind,
        bit(ack),
        event,
        0,
        elements,
        bit(la.minus),
        la.degrees,
        la.minutes,
        la.tenths,
        bit(lo.minus),
        lo.degrees,
        lo.minutes,
        lo.tenths,
        complement(x.position.level),
        t.year,
        t.month,
        t.day,
        bit(t.has_seconds),
        t.hours,
        t.minutes,
        t.seconds,
        m.accuracy,
        bit(m.units),
        bit(m.avoidance),
        address,
    ]
}

// Zeros behind them.
pub(crate) fn flat_fix(
    kind: u32,
    ack: bool,
    event: u32,
    elements: u32,
    x: Fix,
    address: u32,
) -> [u32; A_NUMBERS]
    ensures { result ≡ fix_numbers kind ack event elements x address ++ replicate 15 0 }
{
    padded(&fix_numbers(kind, ack, event, elements, x, address))
}

pub(crate) fn flat_report(kind: u32, ack: bool, event: u32, it: Report) -> [u32; A_NUMBERS]
    ensures { result ≡ flat_report kind ack event it }
{
    let f = flat_fix(kind, ack, event, it.elements, it.fix, it.address);
    with_weather(with_air(with_ground(f, it.over_ground), it.air), it.weather)
}

fn position_at(f: &[u32]) -> Position
    ensures { result ≡ (fix_at f.now).position }
{
    Position {
        latitude: Angle {
            minus: truth_at(f, A_SOUTH),
            degrees: number_by(f, A_SOUTH, A_LATITUDE),
            minutes: number(f, A_LATITUDE_MINUTES),
            tenths: number(f, A_LATITUDE_TENTHS),
        },
        longitude: Angle {
            minus: truth_at(f, A_WEST),
            degrees: number_by(f, A_WEST, A_LONGITUDE),
            minutes: number(f, A_LONGITUDE_MINUTES),
            tenths: number(f, A_LONGITUDE_TENTHS),
        },
        level: signed_at(f, A_LEVEL),
    }
}

// Two truth values stand beside the accuracy.
fn accuracy_at(f: &[u32]) -> u32
    ensures { result ≡ accuracy_at f.now }
{
    let v = number_by(f, A_AVOIDANCE, A_ACCURACY);
    if number(f, A_UNITS) < 2 { v } else { u32::MAX }
}

pub(crate) fn fix_at(f: &[u32]) -> Fix
    ensures { result ≡ fix_at f.now }
{
    Fix {
        position: position_at(f),
        time: Time {
            year: number(f, A_YEAR),
            month: number(f, A_MONTH),
            day: number(f, A_DAY),
            has_seconds: truth_at(f, A_HAS_SECONDS),
            hours: number_by(f, A_HAS_SECONDS, A_HOURS),
            minutes: number(f, A_MINUTES),
            seconds: number(f, A_SECONDS),
        },
        merit: Merit {
            accuracy: accuracy_at(f),
            units: truth_at(f, A_UNITS),
            avoidance: truth_at(f, A_AVOIDANCE),
        },
    }
}

pub(crate) fn report_at(f: &[u32]) -> Report
    ensures { result ≡ report_at f.now }
{
    Report {
        elements: number_by(f, A_WHAT, A_ELEMENTS),
        fix: fix_at(f),
        address: number(f, A_ADDRESS),
        over_ground: ground_vector_at(f),
        air: air_vector_at(f),
        weather: weather_at(f),
    }
}
