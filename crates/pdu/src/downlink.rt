// Aircraft PDUs: what the aircraft sends, their reader and their writer.
ghost use Rattle.std.specs.Prelude.{◌≡◌};
ghost use Rattle.per.specs.Reading.{Reads};
ghost use Rattle.per.specs.Writing.{Writes};
ghost use Rattle.pdu_parts.specs.Lists.{no_list};
ghost use Rattle.pdu.specs.DownlinkTable.{kind_tag, air_alt, air_c};

use crate::map;
use pdu_parts::acked::{AckedEmergency, AckedReport, EventReport};
use pdu_parts::acks::{NegativeAck, Noncompliance};
use pdu_parts::lists::{Listed, no_list};
use per::cursor::{Cursor, Read};
use per::part::Part;
use per::pen::Pen;

// The numbers are those of 01: the kind of a noncompliance, the request that a positive ack answers, the reason of an abort.
#[derive(Drop)]
#[derive(Clone, Copy)]
pub enum Air {
    CancelEmergency,
    Demand(AckedReport),
    Emergency(AckedEmergency),
    Event(EventReport),
    Negative(NegativeAck),
    Noncompliance(u32),
    Periodic(AckedReport),
    Positive(u32),
    Abort(u32),
}

// A PDU with its list: names for a negative ack of reason 2, entries for a noncompliance; for every other kind it is no part of the value.
#[derive(Drop)]
pub struct AirPdu {
    pub kind: Air,
    pub list: Listed,
}

// A PDU without a list, of the kind that `make` makes of what was read.
fn plain<T, F: FnOnce(T) -> Air>(read: Read<T>, make: F) -> Read<AirPdu>
    requires { F.pre make read.value }
    ensures kind { F.post make read.value result.value.kind }
    ensures list { result.value.list ≡ no_list }
    ensures next { result.next ≡ read.next }
{
    let next = read.next;
    let value = AirPdu {
        kind: make(read.value),
        list: no_list(),
    };
    Read { value, next }
}

fn index_of(kind: Air) -> u32
    ensures { result ≡ kind_tag kind }
{
    match kind {
        Air::CancelEmergency => 0,
        Air::Demand(_) => 1,
        Air::Emergency(_) => 2,
        Air::Event(_) => 3,
        Air::Negative(_) => 4,
        Air::Noncompliance(_) => 5,
        Air::Periodic(_) => 6,
        Air::Positive(_) => 7,
        Air::Abort(_) => 8,
    }
}

// The fields after the index.
fn write_fields(p: Pen, out: &mut [u8; 128], kind: Air, list: Listed) -> Pen
    ensures { Writes (air_alt (kind_tag kind)).codec out.old p (record { kind = kind; list = list }) result out.new }
{
    match kind {
        Air::CancelEmergency => p,
        Air::Demand(a) => AckedReport::write(p.extension(out), out, a),
        Air::Emergency(a) => AckedEmergency::write(p.extension(out), out, a),
        Air::Event(a) => EventReport::write(p.extension(out), out, a),
        Air::Negative(a) => NegativeAck::write(p, out, (a, list)),
        Air::Noncompliance(k) => Noncompliance::write(p.extension(out), out, (k, list)),
        Air::Periodic(a) => AckedReport::write(p.extension(out), out, a),
        Air::Positive(n) => p.extension(out).num(out, n, 0, 7),
        Air::Abort(n) => p.extension(out).num(out, n, 0, 7),
    }
}

// The kinds of a PDU, each read by a function of its own: the reader of all would make room for every kind's value at every call.
fn read_demand(c: Cursor, s: &[u8]) -> Read<AirPdu>
    ensures { Reads (air_alt 1).codec s.now c result.value result.next }
{
    plain(AckedReport::read(c.extension(s), s), Air::Demand)
}

fn read_emergency(c: Cursor, s: &[u8]) -> Read<AirPdu>
    ensures { Reads (air_alt 2).codec s.now c result.value result.next }
{
    plain(AckedEmergency::read(c.extension(s), s), Air::Emergency)
}

fn read_event(c: Cursor, s: &[u8]) -> Read<AirPdu>
    ensures { Reads (air_alt 3).codec s.now c result.value result.next }
{
    plain(EventReport::read(c.extension(s), s), Air::Event)
}

fn read_refused(c: Cursor, s: &[u8]) -> Read<AirPdu>
    ensures { Reads (air_alt 4).codec s.now c result.value result.next }
{
    map(
        NegativeAck::read(c, s),
        |(ack, list)| AirPdu {
            kind: Air::Negative(ack),
            list,
        },
    )
}

fn read_unmet(c: Cursor, s: &[u8]) -> Read<AirPdu>
    ensures { Reads (air_alt 5).codec s.now c result.value result.next }
{
    map(
        Noncompliance::read(c.extension(s), s),
        |(kind, list)| AirPdu {
            kind: Air::Noncompliance(kind),
            list,
        },
    )
}

fn read_periodic(c: Cursor, s: &[u8]) -> Read<AirPdu>
    ensures { Reads (air_alt 6).codec s.now c result.value result.next }
{
    plain(AckedReport::read(c.extension(s), s), Air::Periodic)
}

impl Part for AirPdu {
    type Value = AirPdu;

    ghost codec = { air_c };

    fn read(c: Cursor, s: &[u8]) -> Read<AirPdu> {
        let i = c.extension(s).index(s, 8);
        let n = i.next;
        match i.value {
            0 => Read {
                value: AirPdu {
                    kind: Air::CancelEmergency,
                    list: no_list(),
                },
                next: n,
            },
            1 => read_demand(n, s),
            2 => read_emergency(n, s),
            3 => read_event(n, s),
            4 => read_refused(n, s),
            5 => read_unmet(n, s),
            6 => read_periodic(n, s),
            7 => plain(n.extension(s).num(s, 0, 7), Air::Positive),
            _ => plain(n.extension(s).num(s, 0, 7), Air::Abort),
        }
    }

    fn write(p: Pen, out: &mut [u8; 128], a: AirPdu) -> Pen {
        let p = p.extension(out);
        let p = p.index(out, index_of(a.kind), 8);
        write_fields(p, out, a.kind, a.list)
    }
}
