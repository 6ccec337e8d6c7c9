// Aircraft PDUs as 40 numbers, with the list's octets beside them. Missing numbers count as 0; numbers that name nothing make a value that no writer takes.
ghost use Rattle.std.specs.Prelude.{◌≡◌};
ghost use Rattle.host_numbers.specs.DownlinkNumbers.{few, flat_acked, flat_urgent, flat_event, flat_air, acked_at, urgent_at, event_at, negative_at, kind_at, listed_at, list_at, air_at};

use crate::copy::{items_of, padded};
use crate::numbers::{number, number_by, truth_at};
use crate::places::*;
use crate::reports::{fix_at, flat_fix, flat_report, report_at};
use crate::vectors::{ground_vector_at, with_ground};
use pdu::downlink::{Air, AirPdu};
use pdu_parts::acked::{AckedEmergency, AckedReport, EventReport};
use pdu_parts::acks::NegativeAck;
use pdu_parts::lists::{Listed, no_list};
use pdu_parts::report::EmergencyReport;

// A kind without a report.
fn few_of(kind: u32, a: u32, b: u32, count: u32) -> [u32; A_NUMBERS]
    ensures { result ≡ few kind a b count }
{
    padded(&[kind, a, b, count])
}

fn flat_acked(kind: u32, a: AckedReport) -> [u32; A_NUMBERS]
    ensures { result ≡ flat_acked kind a }
{
    flat_report(kind, a.ack, 0, a.report)
}

fn flat_urgent(a: AckedEmergency) -> [u32; A_NUMBERS]
    ensures { result ≡ flat_urgent a }
{
    let it = a.report;
    with_ground(
        flat_fix(2, a.ack, 0, it.elements, it.fix, it.address),
        it.over_ground,
    )
}

fn flat_event(a: EventReport) -> [u32; A_NUMBERS]
    ensures { result ≡ flat_event a }
{
    flat_report(3, a.ack, a.event, a.report)
}

pub fn flat_air(kind: Air, count: u32) -> [u32; A_NUMBERS]
    ensures { result ≡ flat_air kind count }
{
    match kind {
        Air::CancelEmergency => few_of(0, 0, 0, 0),
        Air::Demand(a) => flat_acked(1, a),
        Air::Emergency(a) => flat_urgent(a),
        Air::Event(a) => flat_event(a),
        Air::Negative(a) => few_of(4, a.request, a.reason, count),
        Air::Noncompliance(n) => few_of(5, n, 0, count),
        Air::Periodic(a) => flat_acked(6, a),
        Air::Positive(n) => few_of(7, n, 0, 0),
        Air::Abort(n) => few_of(8, n, 0, 0),
    }
}

fn acked_at(f: &[u32]) -> AckedReport
    ensures { result ≡ acked_at f.now }
{
    AckedReport {
        ack: truth_at(f, A_WHAT),
        report: report_at(f),
    }
}

fn urgent_at(f: &[u32]) -> AckedEmergency
    ensures { result ≡ urgent_at f.now }
{
    AckedEmergency {
        ack: truth_at(f, A_WHAT),
        report: EmergencyReport {
            elements: number_by(f, A_WHAT, A_ELEMENTS),
            fix: fix_at(f),
            address: number(f, A_ADDRESS),
            over_ground: ground_vector_at(f),
        },
    }
}

fn event_at(f: &[u32]) -> EventReport
    ensures { result ≡ event_at f.now }
{
    EventReport {
        ack: truth_at(f, A_WHAT),
        event: number(f, A_DETAIL),
        report: report_at(f),
    }
}

fn negative_at(f: &[u32]) -> NegativeAck
    ensures { result ≡ negative_at f.now }
{
    NegativeAck {
        request: number(f, A_WHAT),
        reason: number(f, A_DETAIL),
    }
}

// A kind over 8 makes an abort of reason 8, which is out of range.
fn kind_at(f: &[u32]) -> Air
    ensures { result ≡ kind_at f.now }
{
    match number(f, A_KIND) {
        0 => Air::CancelEmergency,
        1 => Air::Demand(acked_at(f)),
        2 => Air::Emergency(urgent_at(f)),
        3 => Air::Event(event_at(f)),
        4 => Air::Negative(negative_at(f)),
        5 => Air::Noncompliance(number(f, A_WHAT)),
        6 => Air::Periodic(acked_at(f)),
        7 => Air::Positive(number(f, A_WHAT)),
        8 => Air::Abort(number(f, A_WHAT)),
        _ => Air::Abort(8),
    }
}

fn listed_at(f: &[u32], list: &[u8]) -> Listed
    ensures { result ≡ listed_at f.now list.now }
{
    Listed {
        count: number(f, A_COUNT),
        items: items_of(list),
    }
}

// Only a negative ack and a noncompliance carry a list: for the others none is copied.
fn list_at(f: &[u32], list: &[u8]) -> Listed
    ensures { result ≡ list_at f.now list.now }
{
    match number(f, A_KIND) {
        4 | 5 => listed_at(f, list),
        _ => no_list(),
    }
}

pub fn air_at(f: &[u32], list: &[u8]) -> AirPdu
    ensures { result ≡ air_at f.now list.now }
{
    AirPdu {
        kind: kind_at(f),
        list: list_at(f, list),
    }
}
