// Reports as they are sent: with the positive ack that may go with them.
ghost use Rattle.pdu_parts.specs.AirParts.{acked_c, acked_emergency_c, event_report_c};

use crate::report::{EmergencyReport, Report};
use per::cursor::{Cursor, Read};
use per::part::Part;
use per::pen::Pen;

#[derive(Drop)]
#[derive(Clone, Copy)]
pub struct AckedReport {
    pub ack: bool,
    pub report: Report,
}

#[derive(Drop)]
#[derive(Clone, Copy)]
pub struct AckedEmergency {
    pub ack: bool,
    pub report: EmergencyReport,
}

#[derive(Drop)]
#[derive(Clone, Copy)]
pub struct EventReport {
    pub ack: bool,
    pub event: u32,
    pub report: Report,
}

impl Part for AckedReport {
    type Value = AckedReport;

    ghost codec = { acked_c };

    fn read(c: Cursor, s: &[u8]) -> Read<AckedReport> {
        let ack = c.flag(s);
        let report = Report::read(ack.next, s);
        let value = AckedReport {
            ack: ack.value,
            report: report.value,
        };
        Read {
            value,
            next: report.next,
        }
    }

    fn write(p: Pen, out: &mut [u8; 128], a: AckedReport) -> Pen {
        Report::write(p.flag(out, a.ack), out, a.report)
    }
}

impl Part for AckedEmergency {
    type Value = AckedEmergency;

    ghost codec = { acked_emergency_c };

    fn read(c: Cursor, s: &[u8]) -> Read<AckedEmergency> {
        let ack = c.flag(s);
        let report = EmergencyReport::read(ack.next, s);
        let value = AckedEmergency {
            ack: ack.value,
            report: report.value,
        };
        Read {
            value,
            next: report.next,
        }
    }

    fn write(p: Pen, out: &mut [u8; 128], a: AckedEmergency) -> Pen {
        EmergencyReport::write(p.flag(out, a.ack), out, a.report)
    }
}

impl Part for EventReport {
    type Value = EventReport;

    ghost codec = { event_report_c };

    fn read(c: Cursor, s: &[u8]) -> Read<EventReport> {
        let ack = c.flag(s);
        let event = ack.next.extension(s).num(s, 0, 11);
        let report = Report::read(event.next, s);
        let value = EventReport {
            ack: ack.value,
            event: event.value,
            report: report.value,
        };
        Read {
            value,
            next: report.next,
        }
    }

    fn write(p: Pen, out: &mut [u8; 128], a: EventReport) -> Pen {
        let p = p.flag(out, a.ack);
        let p = p.extension(out);
        let p = p.num(out, a.event, 0, 11);
        Report::write(p, out, a.report)
    }
}
