// The answer to one line: the number that its call gives, the length that it tells, and both lent buffers after it.
ghost use Rattle.std.specs.Prelude.{length, ◌≤◌, ◌≡◌};
ghost use Rattle.text.specs.Page.{page, Writes};
ghost use Rattle.host_lines.specs.Calls.{called};
ghost use Rattle.host_lines.specs.Fields.{asked};
ghost use Rattle.host_lines.specs.Replies.{told_text, after_text, ask_text, line_text};

use crate::call::{Called, call, word_of};
use crate::fields::parse;
use refusals::SCRIPT_LINE;
use text::words::put_refused;
use text::{put_byte, put_decimal, put_hex, word_end};

fn put_told(out: &mut [u8], at: usize, c: Called, link: &[u8], answer: &[u8]) -> usize
    ensures { Writes (page out.old at) (told_text c.number c.length link.now answer.now) (page out.new result) }
{
    let a = put_decimal(out, at, c.number as u64);
    let b = put_byte(out, a, 32);
    let d = put_decimal(out, b, c.length as u64);
    let e = put_byte(out, d, 32);
    let f = put_hex(out, e, link);
    let g = put_byte(out, f, 32);
    put_hex(out, g, answer)
}

// The call, on buffers as long as the fields of the line.
fn say_call(
    out: &mut [u8],
    at: usize,
    w: usize,
    link: &mut [u8],
    octets: &[u8],
    numbers: &[u32],
    answer: &mut [u8],
) -> usize
    ensures { Writes (page out.old at) (after_text (called w link.old octets.now numbers.now answer.old)) (page out.new result) }
{
    let c = call(w, link, octets, numbers, answer);
    put_told(out, at, c, link, answer)
}

// Room for a field. Only its length is stated: its octets are written before they are read.
fn blank() -> [u8; 520]
    ensures { 520 ≡ length result }
{
    [0; 520]
}

fn say_tail(out: &mut [u8], at: usize, w: usize, tail: &[u8]) -> usize
    ensures { Writes (page out.old at) (ask_text w (asked tail.now)) (page out.new result) }
{
    let mut link = blank();
    let mut octets = blank();
    let mut answer = blank();
    let a = parse(tail, &mut link, &mut octets, &mut answer);
    let f = a.numbers;
    if !f.good {
        return put_refused(out, at, SCRIPT_LINE);
    }
    let list = f.list;
    let i = a.link;
    let j = a.octets;
    let k = a.out;
    let n = f.count;
    say_call(
        out,
        at,
        w,
        &mut link[..i],
        &octets[..j],
        &list[..n],
        &mut answer[..k],
    )
}

// One line, without its end.
pub fn answer_line(line: &[u8], out: &mut [u8], at: usize) -> usize
    ensures { Writes (page out.old at) (line_text line.now) (page out.new result) }
{
    if 4096 < line.len() {
        return put_refused(out, at, SCRIPT_LINE);
    }
    let e = word_end(line);
    let w = word_of(&line[..e]);
    if w == 0 {
        return put_refused(out, at, SCRIPT_LINE);
    }
    say_tail(out, at, w, &line[e..])
}
