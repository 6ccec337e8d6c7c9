// Writing: a pen by value over 128 lent octets that keeps its first refusal. From then on it writes nothing.
ghost use Rattle.std.specs.Prelude.{◌≡◌, ◌≤◌};
ghost use Rattle.per.specs.Bits.{of_bit};
ghost use Rattle.per.specs.Formats.{run, num, flag, extension, signed, mask, index, count, when};
ghost use Rattle.per.specs.Writing.{onward, barred, Writes, Delivers};
ghost use Rattle.per.specs.WritingInner.{Inked, Raised};

use crate::cursor::{Signed, mask_bad};
use crate::read_bits::{pow2, width_of};
use crate::write_bits::put_bits;
use refusals::Refusal;

// Where writing stands, and the number of the first refusal it met (0: none).
#[derive(Drop)]
pub struct Pen {
    pub at: usize,
    pub refusal: u8,
}

// The place after w bits; past 128 octets a pen moves no more.
fn onward_of(at: usize, w: usize) -> usize
    requires { w ≤ 32 }
    ensures { result ≡ onward at w }
{
    if 1025 <= at {
        return at;
    }
    (at + w).min(1025)
}

fn bit_of(b: bool) -> u32
    ensures { result ≡ of_bit b }
{
    if b { 1 } else { 0 }
}

// A number with a sign plus `below`, where it is in -below..top; else a number above the range.
fn raise(z: Signed, below: u16, top: u16) -> u32
    ensures { Raised below top z.number result }
{
    let sum = z.number as i64 + below as i64;
    let most = top as i64 + below as i64;
    if sum < 0 || most < sum {
        return top as u32 + below as u32 + 1;
    }
    sum as u32
}

// A field's method is compiled into its caller, where the range and mostly the width are known: as a call it costs a report half as much again to write.
impl Pen {
    // The start of a PDU.
    pub fn start() -> Self
        ensures { result ≡ record { at = 0; refusal = 0 } }
    {
        Self { at: 0, refusal: 0 }
    }

    // The number of a refusal that is not a field's.
    pub fn refuse(self, n: u8) -> Pen
        ensures { result ≡ barred self n }
    {
        if self.refusal != 0 {
            return self;
        }
        Pen { refusal: n, ..self }
    }

    // The w lowest bits of v, by a pen that holds no refusal.
    #[inline(always)]
    fn ink(self, out: &mut [u8; 128], w: usize, v: u32) -> Pen
        requires { w ≤ 32 }
        ensures { Inked out.old self w v result out.new }
    {
        put_bits(out, self.at, w, v);
        Pen {
            at: onward_of(self.at, w),
            refusal: 0,
        }
    }

    // The number v in w bits, w up to 32.
    #[inline(always)]
    pub fn put(self, out: &mut [u8; 128], w: usize, v: u32) -> Pen
        ensures { Writes (run w) out.old self v result out.new }
    {
        if self.refusal != 0 {
            return self;
        }
        if 32 < w || pow2(w) <= v as u64 {
            return Pen {
                refusal: Refusal::OutOfRange.number(),
                ..self
            };
        }
        self.ink(out, w, v)
    }

    // The whole number v of lo..hi.
    #[inline(always)]
    pub fn num(self, out: &mut [u8; 128], v: u32, lo: u32, hi: u32) -> Pen
        ensures { Writes (num lo hi) out.old self v result out.new }
    {
        if self.refusal != 0 {
            return self;
        }
        if v < lo || hi < v {
            return Pen {
                refusal: Refusal::OutOfRange.number(),
                ..self
            };
        }
        self.ink(out, width_of(hi - lo), v - lo)
    }

    // The whole number v of lo..hi, only if it is present.
    #[inline(always)]
    pub fn num_if(self, out: &mut [u8; 128], present: bool, v: u32, lo: u32, hi: u32) -> Pen
        ensures { Writes (when present 0 (num lo hi)) out.old self v result out.new }
    {
        if present {
            return self.num(out, v, lo, hi);
        }
        self
    }

    // The index of a choice, 0..top.
    #[inline(always)]
    pub fn index(self, out: &mut [u8; 128], i: u32, top: u32) -> Pen
        ensures { Writes (index top) out.old self i result out.new }
    {
        self.num(out, i, 0, top)
    }

    // A truth value as one bit.
    #[inline(always)]
    pub fn flag(self, out: &mut [u8; 128], b: bool) -> Pen
        ensures { Writes flag out.old self b result out.new }
    {
        if self.refusal != 0 {
            return self;
        }
        self.ink(out, 1, bit_of(b))
    }

    // An extension bit.
    #[inline(always)]
    pub fn extension(self, out: &mut [u8; 128]) -> Pen
        ensures { Writes extension out.old self (record {}) result out.new }
    {
        if self.refusal != 0 {
            return self;
        }
        self.ink(out, 1, 0)
    }

    // The count of a list, at most 16.
    #[inline(always)]
    pub fn count(self, out: &mut [u8; 128], n: u32) -> Pen
        ensures { Writes count out.old self n result out.new }
    {
        if self.refusal != 0 {
            return self;
        }
        if 16 < n {
            return Pen {
                refusal: Refusal::ListOver.number(),
                ..self
            };
        }
        self.ink(out, 8, n)
    }

    // Presence bits as one number of 0..all.
    #[inline(always)]
    pub fn mask(self, out: &mut [u8; 128], v: u32, all: u32, carried: u32, need: bool) -> Pen
        ensures { Writes (mask all carried need) out.old self v result out.new }
    {
        let bad = mask_bad(v, carried, need);
        if self.refusal != 0 {
            return self;
        }
        if all < v {
            return Pen {
                refusal: Refusal::OutOfRange.number(),
                ..self
            };
        }
        if let Some(refusal) = bad {
            return Pen {
                refusal: refusal.number(),
                ..self
            };
        }
        self.num(out, v, 0, all)
    }

    // A number of -below..top, sent plus `below`.
    #[inline(always)]
    pub fn signed(self, out: &mut [u8; 128], v: Signed, below: u16, top: u16) -> Pen
        ensures { Writes (signed below top) out.old self v result out.new }
    {
        let most = top as u32 + below as u32;
        let sent = raise(v, below, top);
        if self.refusal != 0 {
            return self;
        }
        if most < sent {
            return Pen {
                refusal: Refusal::OutOfRange.number(),
                ..self
            };
        }
        self.ink(out, width_of(most), sent)
    }

    // What stands on the sheet, put into an output: only where there is no refusal, and 6 where it is too short.
    pub fn deliver(self, sheet: &[u8], out: &mut [u8]) -> Result<usize, u8>
        ensures { Delivers self sheet.now out.old result out.new }
    {
        let n = self.at.div_ceil(8);
        if self.refusal != 0 {
            return Err(self.refusal);
        }
        if sheet.len() < n || out.len() < n {
            return Err(Refusal::NoRoom.number());
        }
        out[..n].copy_from_slice(&sheet[..n]);
        Ok(n)
    }
}
