// One number of a flat list, and truth values and signed numbers as such numbers.
ghost use Rattle.std.specs.Prelude.{◌≡◌, get_or};
ghost use Rattle.host_numbers.specs.Numbers.{truth, number_by, bit_of, twos, signed_of};

use per::cursor::Signed;

pub fn number(f: &[u32], i: usize) -> u32
    ensures { result ≡ get_or f.now i 0 }
{
    if i < f.len() { f[i] } else { 0 }
}

pub fn truth_at(f: &[u32], i: usize) -> bool
    ensures { result ≡ truth (get_or f.now i 0) }
{
    number(f, i) != 0
}

// The number at i; one that is in no range where the truth value at `flag`, which the writer cannot judge, is neither 0 nor 1.
pub fn number_by(f: &[u32], flag: usize, i: usize) -> u32
    ensures { result ≡ number_by f.now flag i }
{
    let v = number(f, i);
    if number(f, flag) < 2 { v } else { u32::MAX }
}

pub fn bit(b: bool) -> u32
    ensures { result ≡ bit_of b }
{
    u32::from(b)
}

// A number with a sign stands in its two's complement.
pub fn signed_at(f: &[u32], i: usize) -> Signed
    ensures { result ≡ signed_of (get_or f.now i 0) }
{
    let number = number(f, i).cast_signed();
    Signed { number }
}

pub fn complement(z: Signed) -> u32
    ensures { result ≡ twos z.number }
{
    z.number.cast_unsigned()
}
