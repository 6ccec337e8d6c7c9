// Lines from standard input, and the page on which their answers go to standard output.
ghost use Rattle.std.specs.Prelude.{◌≡◌, ◌≤◌, length};
ghost use Rattle.text_lines.specs.Inputs.{Shows, started};
ghost use Rattle.text_lines.specs.Pulls.{left_of, Starts, Extends, Refills, Pulls};

use crate::gather::gather;
use std::io::{Read, Stdin};

// The file numbers of standard output and of standard error.
const STDOUT: i32 = 1;

const STDERR: i32 = 2;

// No run reads a line in as many pieces.
const TURNS: u64 = 1099511627776;

// A page that has got this far is written out.
pub const FULL: usize = 65536;

// Of the chunk that was read last, `count` octets are there and `from` are used; `open` until a read brings nothing or a write fails.
#[derive(Drop)]
pub struct Input {
    pub from: usize,
    pub count: usize,
    pub open: bool,
}

// `len` octets of a line are kept, if one was `found`, and the pen is at `at` on the page. A read that `failed` is no end of the input: what came of a line
// before it is no line.
#[derive(Drop)]
pub struct Line {
    pub input: Input,
    pub at: usize,
    pub len: usize,
    pub found: bool,
    pub failed: bool,
}

// How many octets of a buffer stand before a place.
pub fn shown(at: usize, out: &[u8]) -> usize
    ensures { Shows at out.now result }
{
    if at < out.len() { at } else { out.len() }
}

// Writes what stands on the page.
fn write_out(at: usize, out: &[u8]) -> bool {
    let n = shown(at, out);
    io::write_all(STDOUT, &out[..n])
}

// Says on standard error that the input was not read to its end.
fn tell_failed() {
    io::write_all(STDERR, b"input could not be read to its end\n");
}

// The place of the pen after the last line, and whether a read failed before the end of the input.
#[derive(Drop)]
pub struct Ended {
    pub at: usize,
    pub failed: bool,
}

// Writes what is left on the page, and says so if the input was not read to its end.
pub fn finish(e: Ended, out: &[u8]) {
    write_out(e.at, out);
    if e.failed {
        tell_failed();
    }
}

// Standard input, of which nothing is read yet.
pub fn start() -> Input
    ensures { result ≡ started }
{
    Input {
        from: 0,
        count: 0,
        open: true,
    }
}

// No input any more.
fn closed() -> Input {
    Input {
        from: 0,
        count: 0,
        open: false,
    }
}

// The start of a line, with room for its answer: a page that is full is written out.
fn start_line(input: Input, at: usize, out: &[u8]) -> Line
    ensures { Starts input result }
{
    let mut l = Line {
        input,
        at,
        len: 0,
        found: false,
        failed: false,
    };
    if at < FULL {
        return l;
    }
    l.at = 0;
    if write_out(at, out) {
        return l;
    }
    l.input.open = false;
    l
}

// The line so far with what the chunk has of it. At the end of the input it is a line if it is not empty.
fn extend(l: Line, chunk: &[u8], line: &mut [u8]) -> Line
    requires { l.len ≤ length line.old }
    ensures { Extends l chunk.now line.old result line.new }
{
    let mut input = l.input;
    let n = shown(input.count, chunk);
    let g = gather(&chunk[..n], input.from, l.len, line);
    let len = g.len;
    input.from = g.next;
    if g.ended {
        return Line {
            input,
            at: l.at,
            len,
            found: true,
            failed: l.failed,
        };
    }
    if input.open {
        return Line {
            input,
            at: l.at,
            len,
            found: false,
            failed: l.failed,
        };
    }
    Line {
        input,
        at: l.at,
        len,
        found: 0 < len,
        failed: l.failed,
    }
}

// A line on an empty page, with an input.
fn with_input(l: Line, input: Input, failed: bool) -> Line
    ensures { Refills l result }
{
    Line {
        input,
        at: 0,
        len: l.len,
        found: l.found,
        failed,
    }
}

// The line so far, with another chunk. What stands on the page is written out first: nobody waits for an answer while the program waits for a line.
fn refill(stdin: Stdin, l: Line, chunk: &mut [u8], out: &[u8]) -> Line
    ensures { Refills l result }
{
    if !write_out(l.at, out) {
        return with_input(l, closed(), false);
    }
    let mut reader = stdin;
    let count = match reader.read(chunk) {
        Ok(0) => return with_input(l, closed(), false),
        Ok(count) => count,
        Err(_) => return with_input(l, closed(), true),
    };
    let input = Input {
        from: 0,
        count,
        open: true,
    };
    with_input(l, input, false)
}

// The next line, if there is one. The input has an end, but a proved loop has to have one, so it turns as often as no run does.
pub fn pull_line(
    stdin: Stdin,
    input: Input,
    at: usize,
    chunk: &mut [u8],
    line: &mut [u8],
    out: &[u8],
) -> Line
    ensures { Pulls (length line.old) (left_of input chunk.old) result chunk.new line.new }
{
    let mut l = start_line(input, at, out);
    for _ in 0..TURNS {
        l = extend(l, chunk, line);
        if l.found {
            return l;
        }
        if !l.input.open {
            return l;
        }
        l = refill(stdin, l, chunk, out);
        if l.failed {
            return l;
        }
    }
    l.input.open = false;
    extend(l, chunk, line)
}
