// Lines from standard input, an answer for each to standard output.
use crate::line::answer_line;
use std::io::Stdin;
use text::put_byte;
use text_lines::input::{Ended, finish, pull_line, shown, start};

// Twice what a full page has: room for the answer to any line.
type Page = [u8; 131072];

// The answer to a line of which `len` octets are kept, and its end.
fn put_answer(out: &mut Page, at: usize, len: usize, line: &[u8]) -> usize {
    let n = shown(len, line);
    let a = answer_line(&line[..n], out, at);
    put_byte(out, a, 10)
}

// Answers every line of the input. A proved loop has to end, so it has more turns than any run uses up.
fn run(stdin: Stdin, chunk: &mut [u8; 65536], line: &mut [u8; 4097], out: &mut Page) -> Ended {
    let mut at = 0;
    let mut input = start();
    for _ in 0..u64::MAX {
        let l = pull_line(stdin, input, at, chunk, line, out);
        input = l.input;
        at = l.at;
        if !l.found {
            return Ended {
                at,
                failed: l.failed,
            };
        }
        at = put_answer(out, at, l.len, line);
    }
    Ended { at, failed: true }
}

// What is left on the page. A lent `Page` has its length, which the array that was lent in `answer` is not known to have.
fn close(e: Ended, out: &Page) {
    finish(e, out);
}

// Answers the whole input. 4,097 octets of a line are kept: enough to see that it is too long.
pub fn answer(stdin: Stdin) {
    let mut chunk = io::large_buffer();
    let mut line = [0u8; 4097];
    let mut out = [0u8; 131072];
    let e = run(stdin, &mut chunk, &mut line, &mut out);
    close(e, &out);
}
