// Lines `air HEX` and `ground HEX` from standard input, an answer for each to standard output: what the programs share.
ghost use Rattle.std.specs.Prelude.{take};
ghost use Rattle.text.specs.Page.{page, Writes};
ghost use Rattle.pdu_words.specs.LineText.{answer_text};

use crate::line::say_line;
use crate::page::Page;
use std::io::Stdin;
use text::put_byte;
use text_lines::input::{Ended, finish, pull_line, shown, start};

// What is said of a PDU.
#[derive(Clone, Copy, PartialEq, Eq, Debug)]
pub enum Task {
    // `ok HEX`, the octets written back from the value read, or `refused N`.
    Code,
    // The PDU in words for a person, or `refused N` with its reason.
    Tell,
}

// The answer to a line of which `len` octets are kept, and its end.
fn put_answer(task: Task, out: &mut Page, at: usize, len: usize, line: &[u8]) -> usize
    ensures { Writes (page out.old at) (answer_text task (take len line.now)) (page out.new result) }
{
    let n = shown(len, line);
    let a = say_line(task, out, at, &line[..n]);
    put_byte(out, a, 10)
}

// Answers every line of the input. A proved loop has to end, so it has more turns than any run uses up. It states no result: which
// octets a read brings, and that a write arrives, no contract can say.
fn run(
    stdin: Stdin,
    task: Task,
    chunk: &mut [u8; 65536],
    line: &mut [u8; 4097],
    out: &mut Page,
) -> Ended {
    let mut at = 0;
    let mut input = start();
    for _ in 0..u64::MAX {
        let l = pull_line(stdin, input, at, chunk, line, out);
        input = l.input;
        at = l.at;
        if !l.found {
            return Ended {
                at,
                failed: l.failed,
            };
        }
        at = put_answer(task, out, at, l.len, line);
    }
    Ended { at, failed: true }
}

// What is left on the page. A lent `Page` has its length, which the array that was lent in `answer` is not known to have.
fn close(e: Ended, out: &Page) {
    finish(e, out);
}

// Answers the whole input, and states no result, as `run`. 4,097 octets of a line are kept: enough to see that it is too long.
pub fn answer(stdin: Stdin, task: Task) {
    let mut chunk = io::large_buffer();
    let mut line = [0u8; 4097];
    let mut out = [0u8; 131072];
    let e = run(stdin, task, &mut chunk, &mut line, &mut out);
    close(e, &out);
}
