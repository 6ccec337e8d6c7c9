// What follows the word of a line: three fields of octets, then numbers.
ghost use Rattle.std.specs.Prelude.{◌≡◌, length};
ghost use Rattle.host_lines.specs.Fields.{held_by, Holds, numbers_in, no_numbers, unasked, Asks};

use text::digits::number_step;
use text::{HexFault, parse_hex, word_end};

// More than any PDU has, so that what follows the last one is seen to count for nothing.
pub(crate) const NUMBERS: usize = 48;

// A field takes `used` octets of the line, and its own `count` octets stand at the front of a buffer.
#[derive(Drop)]
pub(crate) struct Field {
    pub good: bool,
    pub count: usize,
    pub used: usize,
}

// The first `count` of a list.
#[derive(Drop)]
pub(crate) struct Numbers {
    pub good: bool,
    pub count: usize,
    pub list: [u32; NUMBERS],
}

// The numbers of a line, and how many octets each of its fields has.
#[derive(Drop)]
pub(crate) struct Asked {
    pub numbers: Numbers,
    pub link: usize,
    pub octets: usize,
    pub out: usize,
}

fn field_of(h: Result<usize, HexFault>, used: usize) -> Field
    ensures { result ≡ held_by h used }
{
    match h {
        Ok(n) => Field {
            good: true,
            count: n,
            used,
        },
        Err(_) => Field {
            good: false,
            count: 0,
            used: 0,
        },
    }
}

// A space and hexadecimal text, up to the next space or the end: its octets come to the front of `out`.
fn hex_step(s: &[u8], out: &mut [u8]) -> Field
    ensures { Holds (length out.old) s.now result out.new }
{
    if s.len() == 0 {
        return Field {
            good: false,
            count: 0,
            used: 0,
        };
    }
    if s[0] != 32 {
        return Field {
            good: false,
            count: 0,
            used: 0,
        };
    }
    let e = word_end(&s[1..]);
    let end = e + 1;
    let h = parse_hex(&s[1..end], out);
    field_of(h, end)
}

fn no_numbers() -> Numbers
    ensures { result ≡ no_numbers }
{
    Numbers {
        good: false,
        count: 0,
        list: [0; NUMBERS],
    }
}

// Whole numbers, each after one space, up to the end: fewer than the list holds.
fn numbers_in(s: &[u8]) -> Numbers
    ensures { result ≡ numbers_in s.now }
{
    let mut list = [0u32; NUMBERS];
    let mut at = 0;
    for i in 0..NUMBERS {
        if at == s.len() {
            return Numbers {
                good: true,
                count: i,
                list,
            };
        }
        let Some(n) = number_step(&s[at..]) else {
            return no_numbers();
        };
        list[i] = n.value;
        at += n.used;
    }
    no_numbers()
}

fn unread() -> Asked
    ensures { result ≡ unasked }
{
    let numbers = no_numbers();
    Asked {
        numbers,
        link: 0,
        octets: 0,
        out: 0,
    }
}

// The three fields, each into a buffer of its own, and the numbers.
pub(crate) fn parse(s: &[u8], link: &mut [u8], octets: &mut [u8], out: &mut [u8]) -> Asked
    requires { (length link.old ≡ 520) × (length octets.old ≡ 520) × (length out.old ≡ 520) }
    ensures { Asks s.now result link.new octets.new out.new }
{
    let x = hex_step(s, link);
    if !x.good {
        return unread();
    }
    let a = x.used;
    let t = &s[a..];
    let y = hex_step(t, octets);
    if !y.good {
        return unread();
    }
    let b = y.used;
    let u = &t[b..];
    let z = hex_step(u, out);
    if !z.good {
        return unread();
    }
    let c = z.used;
    let numbers = numbers_in(&u[c..]);
    Asked {
        numbers,
        link: x.count,
        octets: y.count,
        out: z.count,
    }
}
