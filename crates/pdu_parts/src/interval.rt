// A reporting interval.
ghost use Rattle.std.specs.Prelude.{◌≡◌};
ghost use Rattle.pdu_parts.specs.Interval.{interval_c, five_minutes, is_five};

use per::cursor::{Cursor, Read};
use per::part::{Element, Part};
use per::pen::Pen;

#[derive(Drop)]
#[derive(Clone, Copy)]
pub enum Interval {
    Seconds(u32),
    Minutes(u32),
}

impl Interval {
    // 5 minutes, the default of a periodic contract.
    pub(crate) fn is_five(self) -> bool
        ensures { result ≡ is_five self }
    {
        match self {
            Interval::Seconds(_) => false,
            Interval::Minutes(n) => n == 5,
        }
    }
}

impl Part for Interval {
    type Value = Interval;

    ghost codec = { interval_c };

    fn read(c: Cursor, s: &[u8]) -> Read<Interval> {
        let i = c.index(s, 1);
        if i.value == 0 {
            let n = i.next.num(s, 1, 59);
            return Read {
                value: Interval::Seconds(n.value),
                next: n.next,
            };
        }
        let n = i.next.num(s, 1, 120);
        Read {
            value: Interval::Minutes(n.value),
            next: n.next,
        }
    }

    fn write(p: Pen, out: &mut [u8; 128], a: Interval) -> Pen {
        match a {
            Interval::Seconds(n) => {
                let p = p.index(out, 0, 1);
                p.num(out, n, 1, 59)
            }
            Interval::Minutes(n) => {
                let p = p.index(out, 1, 1);
                p.num(out, n, 1, 120)
            }
        }
    }
}

// The interval of a periodic contract: 5 minutes where none is sent.
impl Element for Interval {
    ghost none = { five_minutes };

    fn none() -> Interval {
        Interval::Minutes(5)
    }
}
