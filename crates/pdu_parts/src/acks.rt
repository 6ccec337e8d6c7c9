// Negative acks and notices of noncompliance, each with its list.
ghost use Rattle.std.specs.Prelude.{◌≡◌};
ghost use Rattle.pdu_parts.specs.AirParts.{negative_c, noncompliance_c, entry_top};

use crate::lists::{Listed, Names, read_entries, write_entries};
use per::cursor::{Cursor, Read};
use per::part::{Element, Part};
use per::pen::Pen;

// The request that is refused, and why.
#[derive(Drop)]
#[derive(Clone, Copy)]
pub struct NegativeAck {
    pub request: u32,
    pub reason: u32,
}

// Reason 2 carries the list of names.
impl Part for NegativeAck {
    type Value = (NegativeAck, Listed);

    ghost codec = { negative_c };

    fn read(c: Cursor, s: &[u8]) -> Read<(NegativeAck, Listed)> {
        let request = c.extension(s).num(s, 0, 7);
        let reason = request.next.extension(s).num(s, 0, 3);
        let names = Names::read_if(reason.next, s, reason.value == 2);
        let ack = NegativeAck {
            request: request.value,
            reason: reason.value,
        };
        let next = names.next;
        Read {
            value: (ack, names.value),
            next,
        }
    }

    fn write(p: Pen, out: &mut [u8; 128], a: (NegativeAck, Listed)) -> Pen {
        let (ack, list) = a;
        let p = p.extension(out);
        let p = p.num(out, ack.request, 0, 7);
        let p = p.extension(out);
        let p = p.num(out, ack.reason, 0, 3);
        Names::write_if(p, out, ack.reason == 2, list)
    }
}

// The highest entry of each kind of noncompliance.
fn top_of(kind: u32) -> u8
    ensures { result ≡ entry_top kind }
{
    match kind {
        0 => 6,
        1 => 10,
        _ => 7,
    }
}

// A notice: its kind, and its list.
pub struct Noncompliance {}

impl Part for Noncompliance {
    type Value = (u32, Listed);

    ghost codec = { noncompliance_c };

    fn read(c: Cursor, s: &[u8]) -> Read<(u32, Listed)> {
        let kind = c.index(s, 2);
        let entries = read_entries(kind.next, s, top_of(kind.value));
        let next = entries.next;
        Read {
            value: (kind.value, entries.value),
            next,
        }
    }

    fn write(p: Pen, out: &mut [u8; 128], a: (u32, Listed)) -> Pen {
        let (kind, list) = a;
        let p = p.index(out, kind, 2);
        write_entries(p, out, list, top_of(kind))
    }
}
