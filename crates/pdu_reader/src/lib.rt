// The reader: it keeps hold of the lent octets and its bit place. Each function takes it apart and calls the covered cursor on the two.
#![tactic(auto)]

ghost use Rattle.std.specs.Prelude.{◌≡◌};
ghost use Rattle.per.specs.Pdu.{window, finish, read_pdu};
ghost use Rattle.per.specs.Formats.{run, num, flag, extension, signed, mask, index, count, when};
ghost use Rattle.per.specs.Reading.{Reads};
ghost use Rattle.pdu.specs.DownlinkTable.{air_c};
ghost use Rattle.pdu.specs.UplinkTable.{ground_c};
ghost use Rattle.pdu.specs.Answers.{heard};

use pdu::answer;
use pdu::downlink::AirPdu;
use pdu::uplink::Ground;
use per::cursor::{Cursor, Read, Signed};
use per::part::Part;
use refusals::Refusal;

// The octets of a PDU, and the place in them with the first refusal met.
#[derive(Drop)]
pub struct Reader<'a> {
    pub octets: &'a [u8],
    pub place: Cursor,
}

impl<'a> Reader<'a> {
    // Of the octets, at a place: `Cursor::start` of them gives the first.
    pub fn new(octets: &'a [u8], place: Cursor) -> Reader<'a>
        ensures { (result.octets ≡ octets.entry) × (result.place ≡ place) }
    {
        Reader { octets, place }
    }

    // A run of w bits: the cursor's answer.
    pub fn take(self, w: usize) -> Read<u32>
        ensures { Reads (run w) self.entry.octets.now self.entry.place result.value result.next }
    {
        self.place.take(self.octets, w)
    }

    // A whole number in lo..hi.
    pub fn num(self, lo: u32, hi: u32) -> Read<u32>
        ensures { Reads (num lo hi) self.entry.octets.now self.entry.place result.value result.next }
    {
        self.place.num(self.octets, lo, hi)
    }

    // A whole number in lo..hi that stands there only if it is present.
    pub fn num_if(self, present: bool, lo: u32, hi: u32) -> Read<u32>
        ensures { Reads (when present 0 (num lo hi)) self.entry.octets.now self.entry.place result.value result.next }
    {
        self.place.num_if(self.octets, present, lo, hi)
    }

    // The index of a choice, 0..top.
    pub fn index(self, top: u32) -> Read<u32>
        ensures { Reads (index top) self.entry.octets.now self.entry.place result.value result.next }
    {
        self.place.index(self.octets, top)
    }

    // One bit, as a truth value.
    pub fn flag(self) -> Read<bool>
        ensures { Reads flag self.entry.octets.now self.entry.place result.value result.next }
    {
        self.place.flag(self.octets)
    }

    // An extension bit, which must be 0.
    pub fn extension(self) -> Cursor
        ensures { Reads extension self.entry.octets.now self.entry.place (record {}) result }
    {
        self.place.extension(self.octets)
    }

    // The count of a list, at most 16.
    pub fn count(self) -> Read<u32>
        ensures { Reads count self.entry.octets.now self.entry.place result.value result.next }
    {
        self.place.count(self.octets)
    }

    // Presence bits as one number of 0..all: those that are not carried are refused, and where one is needed, none.
    pub fn mask(self, all: u32, carried: u32, need: bool) -> Read<u32>
        ensures { Reads (mask all carried need) self.entry.octets.now self.entry.place result.value result.next }
    {
        self.place.mask(self.octets, all, carried, need)
    }

    // A number of -below..top, sent plus `below`.
    pub fn signed(self, below: u16, top: u16) -> Read<Signed>
        ensures { Reads (signed below top) self.entry.octets.now self.entry.place result.value result.next }
    {
        self.place.signed(self.octets, below, top)
    }

    // What is left after the PDU: 13 for filling that is not zero, 14 for octets behind it.
    pub fn finish(self) -> Cursor
        ensures { result ≡ finish (window self.entry.octets.now) self.entry.place }
    {
        self.place.finish(self.octets)
    }

    // A whole aircraft PDU.
    pub fn air(self) -> Read<AirPdu>
        ensures { Reads air_c self.entry.octets.now self.entry.place result.value result.next }
    {
        AirPdu::read(self.place, self.octets)
    }

    // A whole ground PDU.
    pub fn ground(self) -> Read<Ground>
        ensures { Reads ground_c self.entry.octets.now self.entry.place result.value result.next }
    {
        Ground::read(self.place, self.octets)
    }

    // The same octets, at another place.
    pub fn moved(self, place: Cursor) -> Reader<'a>
        ensures { (result.octets ≡ self.entry.octets) × (result.place ≡ place) }
    {
        Reader {
            octets: self.octets,
            place,
        }
    }
}

// From a place through a reader that is made for it, for callers that hold none: the contracts are those of the covered functions.
fn air_from(place: Cursor, octets: &[u8]) -> Read<AirPdu>
    ensures { Reads air_c octets.now place result.value result.next }
{
    Reader::new(octets, place).air()
}

fn ground_from(place: Cursor, octets: &[u8]) -> Read<Ground>
    ensures { Reads ground_c octets.now place result.value result.next }
{
    Reader::new(octets, place).ground()
}

fn end_from(place: Cursor, octets: &[u8]) -> Cursor
    ensures { result ≡ finish (window octets.now) place }
{
    Reader::new(octets, place).finish()
}

// The whole of an aircraft PDU's octets, read through the reader: the answer is `pdu::decode_air`'s.
pub fn held_air(octets: &[u8]) -> Result<AirPdu, Refusal>
    ensures { heard result ≡ read_pdu air_c octets.now }
{
    let a = air_from(Cursor::start(octets), octets);
    let end = end_from(a.next, octets);
    answer(a.value, Refusal::of(end.refusal))
}

// The whole of a ground PDU's octets, read through the reader: the answer is `pdu::decode_ground`'s.
pub fn held_ground(octets: &[u8]) -> Result<Ground, Refusal>
    ensures { heard result ≡ read_pdu ground_c octets.now }
{
    let g = ground_from(Cursor::start(octets), octets);
    let end = end_from(g.next, octets);
    answer(g.value, Refusal::of(end.refusal))
}
