// Text on lent octets: words, hexadecimal, whole numbers.
#![tactic(auto)]

pub mod digits;
pub mod words;

ghost use Rattle.std.specs.Prelude.{◌≡◌, true, false, [], ◌∷◌, ◌+◌, ◌*◌, ◌/◌, ◌%◌, ◌≤◌, ◌<◌, length};
ghost use Rattle.std.proofs.lemmas.List.Edits.{sets};
ghost use Rattle.text.specs.Text.{digit_of, hex_good, octets_of, same_text, glyph_of, hex_text, decimal, HexRead, WordEnds, Spells, Least};
ghost use Rattle.text.specs.Page.{page, Writes};

// Why hexadecimal text is not read.
#[derive(Clone, Copy, PartialEq, Eq, Debug)]
pub enum HexFault {
    // More than the buffer holds.
    Long,
    // No hexadecimal text.
    Garbled,
}

// The lesser of two, for the part of a buffer that is there.
pub fn least(a: usize, b: usize) -> usize
    ensures { Least a b result }
{
    if a < b { a } else { b }
}

// The value of a hexadecimal digit in lower case, or 16.
#[tactic(auto, unfolding(crate::specs::Text::digit_of))]
pub fn digit(c: u8) -> u8
    ensures { result ≡ digit_of c }
{
    match c {
        b'0'..=b'9' => c - b'0',
        b'a'..=b'f' => c - b'a' + 10,
        _ => 16,
    }
}

fn hex_good(s: &[u8]) -> bool
    ensures { result ≡ hex_good s.now }
{
    s.iter().all(|c| digit(*c) < 16) && s.len() % 2 == 0
}

// One octet of two digits.
fn pair(a: u8, b: u8) -> u8
    requires { (digit_of a < 16) × (digit_of b < 16) }
    ensures { result ≡ digit_of a * 16 + digit_of b }
{
    digit(a) * 16 + digit(b)
}

// One octet more on the page; where there is no room it is dropped, and the pen stays.
pub fn put_byte(out: &mut [u8], at: usize, b: u8) -> usize
    ensures { Writes (page out.old at) (b ∷ []) (page out.new result) }
{
    if at < out.len() {
        out[at] = b;
        return at + 1;
    }
    at
}

// A text.
pub fn put_text(out: &mut [u8], at: usize, s: &[u8]) -> usize
    ensures { Writes (page out.old at) s.now (page out.new result) }
{
    let mut a = at;
    for c in s {
        a = put_byte(out, a, *c);
    }
    a
}

#[tactic(auto, unfolding(crate::specs::Text::glyph_of))]
fn glyph(d: u8) -> u8
    requires { d < 16 }
    ensures { result ≡ glyph_of d }
{
    if d < 10 { b'0' + d } else { b'a' + (d - 10) }
}

// An octet as two digits.
pub fn put_octet(out: &mut [u8], at: usize, o: u8) -> usize
    ensures { Writes (page out.old at) (glyph_of (o / 16) ∷ glyph_of (o % 16) ∷ []) (page out.new result) }
{
    let b = put_byte(out, at, glyph(o / 16));
    put_byte(out, b, glyph(o % 16))
}

// Octets as hexadecimal text.
pub fn put_hex(out: &mut [u8], at: usize, s: &[u8]) -> usize
    ensures { Writes (page out.old at) (hex_text s.now) (page out.new result) }
{
    let mut a = at;
    for o in s {
        a = put_octet(out, a, *o);
    }
    a
}

// Fills `out` from its start with the octets that `s` spells.
fn hex_fill(s: &[u8], out: &mut [u8])
    requires { (hex_good s.now ≡ true) × (length s.now / 2 ≤ length out.old) }
    ensures { out.new ≡ sets out.old 0 (octets_of s.now) }
{
    for i in 0..s.len() / 2 {
        out[i] = pair(s[2 * i], s[2 * i + 1]);
    }
}

// The octets that the hexadecimal text `s` spells, at the start of `out`, and how many they are; a refusal leaves `out` as it was.
pub fn parse_hex(s: &[u8], out: &mut [u8]) -> Result<usize, HexFault>
    ensures { HexRead out.old s.now result out.new }
{
    if !hex_good(s) {
        return Err(HexFault::Garbled);
    }
    let n = s.len() / 2;
    if n > out.len() {
        return Err(HexFault::Long);
    }
    hex_fill(s, out);
    Ok(n)
}

// Where the first space stands, or the end.
pub fn word_end(s: &[u8]) -> usize
    ensures { WordEnds s.now result }
{
    s.iter().position(|c| *c == b' ').unwrap_or(s.len())
}

// The same text.
pub fn same(a: &[u8], b: &[u8]) -> bool
    ensures { result ≡ same_text a.now b.now }
{
    a == b
}

#[derive(Drop)]
struct Spelt {
    text: [u8; 20],
    from: usize,
}

// n's decimal digits, at the end of `text`, and where they start.
fn spell(n: u64) -> Spelt
    ensures { Spells n result }
{
    let mut text = [48u8; 20];
    let mut i = 19;
    let mut rest = n;
    text[19] = 48 + (rest % 10) as u8;
    while i > 0 && rest >= 10 {
        rest = rest / 10;
        i -= 1;
        text[i] = 48 + (rest % 10) as u8;
    }
    Spelt { text, from: i }
}

// A number in decimal.
pub fn put_decimal(out: &mut [u8], at: usize, n: u64) -> usize
    ensures { Writes (page out.old at) (decimal n) (page out.new result) }
{
    let s = spell(n);
    put_text(out, at, &s.text[s.from..])
}
