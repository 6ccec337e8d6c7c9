// A bench script from standard input, its trace to standard output.
ghost use Rattle.std.specs.Prelude.{true, [], ◌+◌, ◌≤◌, length};
ghost use Rattle.text_lines.specs.Pulls.{left};
ghost use Rattle.text.specs.Page.{page};
ghost use Rattle.script.specs.Trace.{bumped, Stands};
ghost use Rattle.script.specs.Playing.{Plays};
ghost use Rattle.bench.specs.Replies.{ground_bench};
ghost use Rattle.bench.specs.Trace.{numbered};

use crate::trace::{Trace, begin, number_line};
use script::room::page_room;
use script::trace::close;
use std::io::Stdin;
use text_lines::input::{finish, pull_line, shown, start};

// A line answered on a page that has room: what stood there stays, and the whole answer stands behind it.
fn add_line(t: Trace, line: &[u8], out: &mut [u8]) -> Trace
    requires { t.at + 34100 ≤ length out.old }
    ensures { Stands (page out.old t.at) (bumped t.number) (numbered (bumped t.number) t.setup line.now) result.number result.setup (page out.new result.at) }
{
    number_line(t, line, out)
}

// The trace after the last line, and whether a read failed before the end of the input.
#[derive(Drop)]
pub struct Played {
    pub trace: Trace,
    pub failed: bool,
}

// Answers every line of the input. A proved loop has to end, so it turns as often as no run does.
fn run(stdin: Stdin, t: Trace, chunk: &mut [u8], line: &mut [u8], out: &mut [u8]) -> Played
    requires { 131072 ≤ length out.old }
    ensures { Plays ground_bench (length line.old) (left true []) t.number t.setup result.trace.number result.trace.setup result.failed }
{
    let mut e = t;
    let mut input = start();
    for _ in 0..u64::MAX {
        let l = pull_line(stdin, input, e.at, chunk, line, out);
        input = l.input;
        e.at = l.at;
        if !l.found {
            return Played {
                trace: e,
                failed: l.failed,
            };
        }
        let n = shown(l.len, line);
        e = add_line(e, &line[..n], out);
    }
    Played {
        trace: e,
        failed: true,
    }
}

// Plays the whole script.
pub fn play(stdin: Stdin) {
    let mut chunk = io::large_buffer();
    let mut line = [0u8; 4097];
    let mut out = page_room();
    let t = begin(&mut out);
    let p = run(stdin, t, &mut chunk, &mut line, &mut out);
    let last = p.trace;
    let e = close(&mut out, last.at, last.number, p.failed);
    finish(e, &out);
}
