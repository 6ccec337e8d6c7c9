// A flight script from standard input, what came of it to standard output.
ghost use Rattle.std.specs.Prelude.{◌≡◌, true, false, [], ◌+◌, ◌≤◌, length};
ghost use Rattle.text.specs.Page.{page};
ghost use Rattle.text_lines.specs.Pulls.{left};
ghost use Rattle.world.specs.World.{world_of};
ghost use Rattle.script.specs.Trace.{bumped, Stands};
ghost use Rattle.flight_bench.specs.Trace.{numbered, ADDED-MOST, ENDING-MOST, Ends};
ghost use Rattle.flight_bench.specs.Playing.{Plays};

use crate::ending::put_states;
use crate::trace::{Trace, begin, number_line};
use script::room::page_room;
use script::trace::close;
use std::io::Stdin;
use text_lines::input::{Ended, finish, pull_line, shown, start};

// A line answered on a page that has room: what stood there stays, and the whole answer stands behind it.
fn add_line(t: Trace, line: &[u8], out: &mut [u8]) -> Trace
    requires { t.at + ADDED-MOST ≤ length out.old }
    ensures { Stands (page out.old t.at) (bumped t.number) (numbered (bumped t.number) (world_of t.world) line.now) result.number (world_of result.world) (page out.new result.at) }
{
    number_line(t, line, out)
}

// The trace after the last line, and whether a read failed before the end of the input.
#[derive(Drop)]
pub struct Played {
    pub trace: Trace,
    pub failed: bool,
}

// Answers every line of the input. A proved loop has to end, so it counts to a number that no run comes to.
fn run(stdin: Stdin, t: Trace, chunk: &mut [u8], line: &mut [u8], out: &mut [u8]) -> Played
    requires { 131072 ≤ length out.old }
    ensures { Plays (length line.old) (left true []) t.number (world_of t.world) result.trace.number (world_of result.trace.world) result.trace.at result.failed }
{
    let mut e = t;
    let mut input = start();
    for _turn in 0..u64::MAX {
        let l = pull_line(stdin, input, e.at, chunk, line, out);
        input = l.input;
        e.at = l.at;
        if !l.found {
            return Played {
                trace: e,
                failed: l.failed,
            };
        }
        let n = shown(l.len, line);
        e = add_line(e, &line[..n], out);
    }
    Played {
        trace: e,
        failed: true,
    }
}

// The end of a flight, which stands there only if the script was read to its end.
fn end_flight(p: Played, out: &mut [u8]) -> Ended
    requires { p.failed ≡ false → p.trace.at + ENDING-MOST ≤ length out.old }
    ensures { Ends p.failed (world_of p.trace.world) p.trace.number (page out.old p.trace.at) result out.new }
{
    let t = p.trace;
    if p.failed {
        return Ended {
            at: t.at,
            failed: true,
        };
    }
    let a = put_states(out, t.at, t.world);
    close(out, a, t.number, false)
}

// Plays the whole script.
pub fn play(stdin: Stdin) {
    let mut chunk = io::large_buffer();
    let mut line = [0u8; 4097];
    let mut out = page_room();
    let t = begin(&mut out);
    let p = run(stdin, t, &mut chunk, &mut line, &mut out);
    let e = end_flight(p, &mut out);
    finish(e, &out);
}
