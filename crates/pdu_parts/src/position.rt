// Latitude, longitude and level.
ghost use Rattle.pdu_parts.specs.Reports.{angle_c, position_c};

use per::cursor::{Cursor, Read, Signed};
use per::part::Part;
use per::pen::Pen;

// Degrees, minutes and tenth-seconds. Minus zero and plus zero stay different.
#[derive(Drop)]
#[derive(Clone, Copy)]
pub struct Angle {
    pub minus: bool,
    pub degrees: u32,
    pub minutes: u32,
    pub tenths: u32,
}

#[derive(Drop)]
#[derive(Clone, Copy)]
pub struct Position {
    pub latitude: Angle,
    pub longitude: Angle,
    pub level: Signed,
}

// An angle of at most TOP degrees: a constant, as for a number that is handed in the width would be worked out at every call.
pub struct AngleTo<const TOP: u32> {}

pub type Latitude = AngleTo<90>;

pub type Longitude = AngleTo<180>;

impl<const TOP: u32> Part for AngleTo<TOP> {
    type Value = Angle;

    ghost codec = { angle_c TOP };

    fn read(c: Cursor, s: &[u8]) -> Read<Angle> {
        let minus = c.flag(s);
        let degrees = minus.next.num(s, 0, TOP);
        let minutes = degrees.next.num(s, 0, 59);
        let tenths = minutes.next.num(s, 0, 599);
        let value = Angle {
            minus: minus.value,
            degrees: degrees.value,
            minutes: minutes.value,
            tenths: tenths.value,
        };
        Read {
            value,
            next: tenths.next,
        }
    }

    fn write(p: Pen, out: &mut [u8; 128], a: Angle) -> Pen {
        let p = p.flag(out, a.minus);
        let p = p.num(out, a.degrees, 0, TOP);
        let p = p.num(out, a.minutes, 0, 59);
        p.num(out, a.tenths, 0, 599)
    }
}

impl Part for Position {
    type Value = Position;

    ghost codec = { position_c };

    fn read(c: Cursor, s: &[u8]) -> Read<Position> {
        let latitude = Latitude::read(c, s);
        let longitude = Longitude::read(latitude.next, s);
        let level = longitude.next.signed(s, 75, 10000);
        let value = Position {
            latitude: latitude.value,
            longitude: longitude.value,
            level: level.value,
        };
        Read {
            value,
            next: level.next,
        }
    }

    fn write(p: Pen, out: &mut [u8; 128], a: Position) -> Pen {
        let p = Latitude::write(p, out, a.latitude);
        let p = Longitude::write(p, out, a.longitude);
        p.signed(out, a.level, 75, 10000)
    }
}
