// Runs of bits in octets: the one place that reads them.
ghost use Rattle.std.specs.Prelude.{◌≡◌, ◌+◌, ◌-◌, ◌*◌, ◌^◌, ◌≤◌, ◌<◌, length};
ghost use Rattle.per.specs.Bits.{num_at, width};
ghost use Rattle.per.specs.Pdu.{window, fill};

pub(crate) fn wide(x: u8) -> u64
    ensures { (result ≡ x) × (result < 256) }
{
    x as u64
}

pub(crate) fn pow2(k: usize) -> u64
    requires { k ≤ 32 }
    ensures { result ≡ 2 ^ k }
{
    1u64 << k
}

// The fewest bits that hold n.
pub fn width_of(n: u32) -> usize
    ensures { (result ≡ width n) × (result ≤ 32) }
{
    (32 - u32::leading_zeros(n)) as usize
}

// How many bits an input has; a longer one than 128 octets is refused before it is read.
pub(crate) fn room(s: &[u8]) -> usize
    ensures { result ≡ length (window s.now) }
{
    s.len().min(128) * 8
}

// How many bits are left at a place.
pub(crate) fn left(s: &[u8], at: usize) -> usize
    ensures { result ≡ length (window s.now) - at }
{
    room(s).saturating_sub(at)
}

// Octet i as a number, and the two, three, four and five octets from it on.
fn octet(s: &[u8], i: usize) -> u64
    requires { i * 8 + 8 ≤ length (window s.now) }
    ensures { (result ≡ num_at (window s.now) (i * 8) 8) × (result < 2 ^ 8) }
{
    wide(s[i])
}

fn pair(s: &[u8], i: usize) -> u64
    requires { i * 8 + 16 ≤ length (window s.now) }
    ensures { (result ≡ num_at (window s.now) (i * 8) 16) × (result < 2 ^ 16) }
{
    let a = octet(s, i);
    let b = octet(s, i + 1);
    a * 256 + b
}

fn triple(s: &[u8], i: usize) -> u64
    requires { i * 8 + 24 ≤ length (window s.now) }
    ensures { (result ≡ num_at (window s.now) (i * 8) 24) × (result < 2 ^ 24) }
{
    let a = pair(s, i);
    let b = octet(s, i + 2);
    a * 256 + b
}

fn quad(s: &[u8], i: usize) -> u64
    requires { i * 8 + 32 ≤ length (window s.now) }
    ensures { (result ≡ num_at (window s.now) (i * 8) 32) × (result < 2 ^ 32) }
{
    let a = pair(s, i);
    let b = pair(s, i + 2);
    a * 65536 + b
}

fn five(s: &[u8], i: usize) -> u64
    requires { i * 8 + 40 ≤ length (window s.now) }
    ensures { (result ≡ num_at (window s.now) (i * 8) 40) × (result < 2 ^ 40) }
{
    let a = quad(s, i);
    let b = octet(s, i + 4);
    a * 256 + b
}

// The number in the w bits from place at, out of the one to five octets that they lie in. The octets of an input end with an
// octet, so a run that is there lies in whole octets that are there.
pub(crate) fn bits_at(s: &[u8], at: usize, w: usize) -> u64
    requires { (w ≤ length (window s.now) - at) × (w ≤ 32) }
    ensures { result ≡ num_at (window s.now) at w }
{
    if w == 0 {
        return 0;
    }
    let i = at / 8;
    let t = at % 8 + w;
    let m = pow2(w);
    if t <= 8 {
        return (octet(s, i) >> (8 - t)) % m;
    }
    if t <= 16 {
        return (pair(s, i) >> (16 - t)) % m;
    }
    if t <= 24 {
        return (triple(s, i) >> (24 - t)) % m;
    }
    if t <= 32 {
        return (quad(s, i) >> (32 - t)) % m;
    }
    (five(s, i) >> (40 - t)) % m
}

// What follows a place in its octet: the filling, where a PDU ends there.
pub(crate) fn octet_rest(s: &[u8], at: usize) -> u64
    requires { at ≤ length (window s.now) }
    ensures { result ≡ num_at (window s.now) at (fill at) }
{
    let k = at % 8;
    if k == 0 {
        return 0;
    }
    octet(s, at / 8) % pow2(8 - k)
}
