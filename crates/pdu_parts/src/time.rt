// The time of a report, and its figure of merit.
ghost use Rattle.pdu_parts.specs.Reports.{time_c, merit_c};

use per::cursor::{Cursor, Read};
use per::part::Part;
use per::pen::Pen;

// Any day of 1 to 31 goes with any month.
#[derive(Drop)]
#[derive(Clone, Copy)]
pub struct Time {
    pub year: u32,
    pub month: u32,
    pub day: u32,
    pub has_seconds: bool,
    pub hours: u32,
    pub minutes: u32,
    pub seconds: u32,
}

// Accuracy, and whether several navigation units and collision avoidance are at work.
#[derive(Drop)]
#[derive(Clone, Copy)]
pub struct Merit {
    pub accuracy: u32,
    pub units: bool,
    pub avoidance: bool,
}

impl Part for Time {
    type Value = Time;

    ghost codec = { time_c };

    fn read(c: Cursor, s: &[u8]) -> Read<Time> {
        let year = c.num(s, 1996, 2095);
        let month = year.next.num(s, 1, 12);
        let day = month.next.num(s, 1, 31);
        let has = day.next.flag(s);
        let hours = has.next.num(s, 0, 23);
        let minutes = hours.next.num(s, 0, 59);
        let seconds = minutes.next.num_if(s, has.value, 0, 59);
        let value = Time {
            year: year.value,
            month: month.value,
            day: day.value,
            has_seconds: has.value,
            hours: hours.value,
            minutes: minutes.value,
            seconds: seconds.value,
        };
        Read {
            value,
            next: seconds.next,
        }
    }

    fn write(p: Pen, out: &mut [u8; 128], a: Time) -> Pen {
        let p = p.num(out, a.year, 1996, 2095);
        let p = p.num(out, a.month, 1, 12);
        let p = p.num(out, a.day, 1, 31);
        let p = p.flag(out, a.has_seconds);
        let p = p.num(out, a.hours, 0, 23);
        let p = p.num(out, a.minutes, 0, 59);
        p.num_if(out, a.has_seconds, a.seconds, 0, 59)
    }
}

impl Part for Merit {
    type Value = Merit;

    ghost codec = { merit_c };

    fn read(c: Cursor, s: &[u8]) -> Read<Merit> {
        let accuracy = c.num(s, 0, 7);
        let units = accuracy.next.flag(s);
        let avoidance = units.next.flag(s);
        let value = Merit {
            accuracy: accuracy.value,
            units: units.value,
            avoidance: avoidance.value,
        };
        Read {
            value,
            next: avoidance.next,
        }
    }

    fn write(p: Pen, out: &mut [u8; 128], a: Merit) -> Pen {
        let p = p.num(out, a.accuracy, 0, 7);
        let p = p.flag(out, a.units);
        p.flag(out, a.avoidance)
    }
}
