// The word of a line and what follows it, over the words of any side.
ghost use Rattle.std.specs.Prelude.{◌≡◌, ◌≤◌, length, get_or};
ghost use Rattle.text.specs.Words.{words_of};
ghost use Rattle.script.specs.Fields.{alone_field, hex_field, number_after, counted, field_of, held_in, Says};
ghost use Rattle.script.specs.Lines.{heard_into, heard_in, SetPartOf};

use text::digits::parse_number;
use text::words::find;
use text::{parse_hex, same, word_end};

// What may follow a word.
pub const NEVER: u8 = 0;

pub const ALONE: u8 = 1;

pub const HEX: u8 = 2;

pub const NUMBER: u8 = 3;

// A line with more octets is not readable.
const LONGEST: usize = 4096;

// What follows a word: text that is not readable, octets in a buffer, or a number.
#[derive(Drop)]
pub enum Held {
    Unread,
    Octets(usize),
    Number(u32),
}

// The number of a line's word, 0 for none, and what follows it.
#[derive(Drop)]
pub struct Heard {
    pub word: usize,
    pub held: Held,
}

fn hold_nothing(tail: &[u8]) -> Held
    ensures { Says result (alone_field tail.now) }
{
    if tail.len() == 0 {
        return Held::Octets(0);
    }
    Held::Unread
}

// Nothing, or a space and hexadecimal text: its octets come to the front of `octets`.
fn hold_octets(tail: &[u8], octets: &mut [u8]) -> Held
    requires { (length tail.now ≤ 4096) × (2048 ≤ length octets.old) }
    ensures { held_in result octets.new ≡ hex_field tail.now }
{
    if tail.len() == 0 {
        return Held::Octets(0);
    }
    if tail.len() == 1 {
        return Held::Unread;
    }
    match parse_hex(&tail[1..], octets) {
        Ok(n) => Held::Octets(n),
        Err(_) => Held::Unread,
    }
}

// A space and a whole number.
pub fn number_after(tail: &[u8]) -> Option<u32>
    ensures { result ≡ number_after tail.now }
{
    match tail {
        [] => None,
        [_, digits @ ..] => parse_number(digits),
    }
}

fn hold_number(v: Option<u32>) -> Held
    ensures { Says result (counted v) }
{
    match v {
        Some(n) => Held::Number(n),
        None => Held::Unread,
    }
}

// What stands behind a word, as what may follow it.
fn hold(shape: u8, tail: &[u8], octets: &mut [u8]) -> Held
    requires { (length tail.now ≤ 4096) × (2048 ≤ length octets.old) }
    ensures { held_in result octets.new ≡ field_of shape tail.now }
{
    match shape {
        ALONE => hold_nothing(tail),
        HEX => hold_octets(tail, octets),
        NUMBER => hold_number(number_after(tail)),
        _ => Held::Unread,
    }
}

// What may follow word w.
pub fn shape_at(shapes: &[u8], w: usize) -> u8
    ensures { result ≡ get_or shapes.now w 0 }
{
    if w < shapes.len() {
        return shapes[w];
    }
    NEVER
}

// The word of a line in the table `words`, by where each begins, and what follows it by `shapes`. Octets come to the front of `octets`, which is to have room
// for those of any line.
pub fn read_line(
    line: &[u8],
    words: &[u8],
    begins: &[usize],
    shapes: &[u8],
    octets: &mut [u8],
) -> Heard
    ensures { heard_in result octets.new ≡ heard_into (length octets.old) (words_of words.now begins.now) shapes.now line.now }
{
    if octets.len() < 2048 {
        return Heard {
            word: 0,
            held: Held::Unread,
        };
    }
    if LONGEST < line.len() {
        return Heard {
            word: 0,
            held: Held::Unread,
        };
    }
    let e = word_end(line);
    let w = find(&line[..e], words, begins);
    let shape = shape_at(shapes, w);
    let held = hold(shape, &line[e..], octets);
    Heard { word: w, held }
}

// Where the settings of a line begin that has them: its word is `set`.
pub fn set_part(line: &[u8]) -> Option<usize>
    ensures { SetPartOf line.now result }
{
    if LONGEST < line.len() {
        return None;
    }
    let from = word_end(line);
    if same(&line[..from], b"set") {
        Some(from)
    } else {
        None
    }
}
