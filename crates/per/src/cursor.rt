// Reading: a cursor by value that keeps its first refusal. A read on a cursor that holds one gives the empty value and the same cursor.
ghost use Rattle.std.specs.Prelude.{◌≡◌, not, ◌+◌, ◌-◌, eqb, leb};
ghost use Rattle.per.specs.Codec.{unless, refuse};
ghost use Rattle.per.specs.Formats.{run, num, flag, extension, signed, mask, mask_bad, has, index, count, when};
ghost use Rattle.per.specs.Pdu.{window, start, ending, finish};
ghost use Rattle.per.specs.Reading.{Reads};
ghost use Rattle.per.specs.ReadingInner.{settled};
ghost use Rattle.refusals.specs.Refusals.{EXTENSION-SET, LIST-OVER, number, number_or_none};

use crate::read_bits::{bits_at, left, octet_rest, room, width_of};
use refusals::Refusal;

// Where reading stands, and the number of the first refusal it met (0: none).
#[derive(Drop)]
#[derive(Clone, Copy)]
pub struct Cursor {
    pub at: usize,
    pub refusal: u8,
}

// What was read at a place, and where reading goes on.
#[derive(Drop)]
#[derive(Clone, Copy)]
pub struct Read<T> {
    pub value: T,
    pub next: Cursor,
}

impl<T> Read<T> {
    // The same reading, with another value made of what was read.
    pub fn map<U, F: FnOnce(T) -> U>(self, f: F) -> Read<U>
        requires { F.pre f self.value }
        ensures value { F.post f self.value result.value }
        ensures next { result.next ≡ self.next }
    {
        let next = self.next;
        Read {
            value: f(self.value),
            next,
        }
    }
}

// A number with a sign.
#[derive(Drop)]
#[derive(Clone, Copy)]
pub struct Signed {
    pub number: i32,
}

// Nothing was read at a place, for the refusal's reason: `value` is the empty one.
fn refused<T>(value: T, at: usize, refusal: Refusal) -> Read<T>
    ensures { result ≡ record { value = value; next = refuse at (number refusal) } }
{
    let next = Cursor {
        at,
        refusal: refusal.number(),
    };
    Read { value, next }
}

// A number v that was sent is above the range lo..hi; nothing is in an empty range.
fn above(lo: u32, hi: u32, v: u32) -> bool
    ensures { result ≡ not (leb (lo + v) hi) }
{
    hi < lo || hi - lo < v
}

fn span(lo: u32, hi: u32) -> u32
    ensures { result ≡ hi - lo }
{
    hi.saturating_sub(lo)
}

fn extension_bad(v: u32) -> Option<Refusal>
    ensures { number_or_none result ≡ unless (eqb v 0) EXTENSION-SET }
{
    if v == 0 {
        None
    } else {
        Some(Refusal::ExtensionSet)
    }
}

fn count_bad(v: u32) -> Option<Refusal>
    ensures { number_or_none result ≡ unless (leb v 16) LIST-OVER }
{
    if v <= 16 {
        None
    } else {
        Some(Refusal::ListOver)
    }
}

pub fn mask_bad(v: u32, carried: u32, need: bool) -> Option<Refusal>
    ensures { number_or_none result ≡ mask_bad carried need v }
{
    if v & carried != v {
        return Some(Refusal::NotCarried);
    }
    if need && v == 0 {
        return Some(Refusal::NoElement);
    }
    None
}

// A presence bit of weight w is set.
pub fn present(v: u32, w: u32) -> bool
    ensures { result ≡ has w v }
{
    v & w != 0
}

// 13 where the filling is not zero, 14 where octets follow the PDU.
fn ending_bad(s: &[u8], at: usize) -> Option<Refusal>
    ensures { number_or_none result ≡ ending (window s.now) at }
{
    let end = room(s);
    if end < at {
        return Some(Refusal::OctetsAfter);
    }
    if octet_rest(s, at) != 0 {
        return Some(Refusal::Filling);
    }
    if at + (8 - at % 8) % 8 != end {
        return Some(Refusal::OctetsAfter);
    }
    None
}

impl Cursor {
    // The start of an input: one over 128 octets is refused with 16 before anything is read.
    pub fn start(s: &[u8]) -> Self
        ensures { result ≡ start s.now }
    {
        if s.len() <= 128 {
            return Self { at: 0, refusal: 0 };
        }
        Self {
            at: 0,
            refusal: Refusal::InputOver.number(),
        }
    }

    // The next w bits as a number, w up to 32.
    pub fn take(self, s: &[u8], w: usize) -> Read<u32>
        ensures { Reads (run w) s.now self result.value result.next }
    {
        let at = self.at;
        if self.refusal != 0 {
            return Read {
                value: 0,
                next: self,
            };
        }
        if left(s, at) < w {
            return refused(0, at, Refusal::CutShort);
        }
        let next = Cursor {
            at: at + w,
            refusal: 0,
        };
        // Called from one place alone, the leaf would be compiled into `take`, which then is too long to be compiled into its callers, where w is known.
        if w <= 8 {
            let value = bits_at(s, at, w) as u32;
            return Read { value, next };
        }
        if 32 < w {
            return refused(0, at, Refusal::AboveRange);
        }
        let value = bits_at(s, at, w) as u32;
        Read { value, next }
    }

    // The reading t from this place on, with the judgement `bad` on it.
    fn settle(self, t: Read<u32>, bad: Option<Refusal>) -> Read<u32>
        ensures { result ≡ settled self t (number_or_none bad) }
    {
        if t.next.refusal != 0 {
            return t;
        }
        if let Some(refusal) = bad {
            return refused(0, self.at, refusal);
        }
        t
    }

    // A whole number in lo..hi.
    pub fn num(self, s: &[u8], lo: u32, hi: u32) -> Read<u32>
        ensures { Reads (num lo hi) s.now self result.value result.next }
    {
        let t = self.take(s, width_of(span(lo, hi)));
        if t.next.refusal != 0 {
            return t;
        }
        if above(lo, hi, t.value) {
            return refused(0, self.at, Refusal::AboveRange);
        }
        Read {
            value: lo + t.value,
            next: t.next,
        }
    }

    // A whole number in lo..hi that stands there only if it is present.
    pub fn num_if(self, s: &[u8], present: bool, lo: u32, hi: u32) -> Read<u32>
        ensures { Reads (when present 0 (num lo hi)) s.now self result.value result.next }
    {
        if present {
            return self.num(s, lo, hi);
        }
        Read {
            value: 0,
            next: self,
        }
    }

    // The index of a choice, 0..top.
    pub fn index(self, s: &[u8], top: u32) -> Read<u32>
        ensures { Reads (index top) s.now self result.value result.next }
    {
        self.num(s, 0, top)
    }

    // One bit, as a truth value.
    pub fn flag(self, s: &[u8]) -> Read<bool>
        ensures { Reads flag s.now self result.value result.next }
    {
        let t = self.take(s, 1);
        Read {
            value: t.value == 1,
            next: t.next,
        }
    }

    // An extension bit, which must be 0.
    pub fn extension(self, s: &[u8]) -> Cursor
        ensures { Reads extension s.now self (record {}) result }
    {
        let t = self.take(s, 1);
        let r = self.settle(t, extension_bad(t.value));
        r.next
    }

    // The count of a list, at most 16.
    pub fn count(self, s: &[u8]) -> Read<u32>
        ensures { Reads count s.now self result.value result.next }
    {
        let t = self.take(s, 8);
        self.settle(t, count_bad(t.value))
    }

    // Presence bits as one number of 0..all: those that are not carried are refused, and where one is needed, none.
    pub fn mask(self, s: &[u8], all: u32, carried: u32, need: bool) -> Read<u32>
        ensures { Reads (mask all carried need) s.now self result.value result.next }
    {
        let t = self.num(s, 0, all);
        self.settle(t, mask_bad(t.value, carried, need))
    }

    // A number of -below..top, sent plus `below`.
    pub fn signed(self, s: &[u8], below: u16, top: u16) -> Read<Signed>
        ensures { Reads (signed below top) s.now self result.value result.next }
    {
        let most = top as u32 + below as u32;
        let t = self.take(s, width_of(most));
        if t.next.refusal != 0 {
            return Read {
                value: Signed { number: 0 },
                next: t.next,
            };
        }
        if most < t.value {
            return refused(Signed { number: 0 }, self.at, Refusal::AboveRange);
        }
        let number = t.value as i32 - below as i32;
        Read {
            value: Signed { number },
            next: t.next,
        }
    }

    // The end of the PDU: the filling, and that no octet follows.
    pub fn finish(self, s: &[u8]) -> Cursor
        ensures { result ≡ finish (window s.now) self }
    {
        if self.refusal != 0 {
            return self;
        }
        match ending_bad(s, self.at) {
            Some(refusal) => Cursor {
                refusal: refusal.number(),
                ..self
            },
            None => self,
        }
    }
}

#[cfg(test)]
mod tests {
    use super::*;

    // A reading goes on after `map` where it stood, at its refusal too.
    #[test]
    fn map_keeps_the_place(rt: HostRuntime) {
        let s = [0xA0u8];
        let five = Cursor::start(&s).take(&s, 3).map(|v| v == 5);
        assert!(rt; five.value);
        assert_eq!(rt; five.next.at, 3);
        assert_eq!(rt; five.next.refusal, 0);
        let none = five.next.take(&s, 6).map(|v| (v, v == 0));
        assert_eq!(rt; none.value, (0, true));
        assert_eq!(rt; none.next.at, 3);
        assert_eq!(rt; none.next.refusal, Refusal::CutShort.number());
    }
}
