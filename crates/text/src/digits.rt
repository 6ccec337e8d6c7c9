// Whole numbers as text, one or several of them.
ghost use Rattle.std.specs.Prelude.{◌≡◌};
ghost use Rattle.text.specs.Numbers.{number_from, number_of, step_of};

use crate::word_end;

// Decimal digits, from the left.
fn digits_of(s: &[u8]) -> Option<u32>
    ensures { result ≡ number_from 0 s.now }
{
    let mut v: u32 = 0;
    for c in s {
        if !c.is_ascii_digit() {
            return None;
        }
        let next = (v as u64) * 10 + (*c - b'0') as u64;
        if next > 4294967295 {
            return None;
        }
        v = next as u32;
    }
    Some(v)
}

// A whole number: no sign, no leading zero, below 2^32.
pub fn parse_number(s: &[u8]) -> Option<u32>
    ensures { result ≡ number_of s.now }
{
    match s.len() {
        0 => None,
        1 => digits_of(s),
        _ if s[0] == b'0' => None,
        _ => digits_of(s),
    }
}

// What `number_step` found: the number, and how many octets it took.
#[derive(Clone, Copy)]
pub struct Stepped {
    pub value: u32,
    pub used: usize,
}

// A space and a whole number, up to the next space or the end.
pub fn number_step(s: &[u8]) -> Option<Stepped>
    ensures { result ≡ step_of s.now }
{
    if s.len() == 0 || s[0] != b' ' {
        return None;
    }
    let used = word_end(&s[1..]) + 1;
    let value = parse_number(&s[1..used])?;
    Some(Stepped { value, used })
}
