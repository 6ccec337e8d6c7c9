// The trace of an air script: its first line, and the answer to each line with its number.
ghost use Rattle.text.specs.Page.{page};
ghost use Rattle.script.specs.Trace.{bumped, Adds};
ghost use Rattle.air_bench.specs.Replies.{begun};
ghost use Rattle.air_bench.specs.Trace.{numbered};

use crate::reply::{Setup, answer_line};
use air_answer::fresh::idle_link;
use script::trace::bump;
use text::{put_byte, put_decimal, put_text};

// `number` lines are answered, and the pen is at `at` on the page.
#[derive(Drop)]
pub struct Trace {
    pub number: u64,
    pub at: usize,
    pub setup: Setup,
}

// The start of a trace, on an empty page.
pub fn begin(out: &mut [u8]) -> Trace
    ensures { Adds (page out.old 0) 0 begun result.number result.setup (page out.new result.at) }
{
    let at = put_text(out, 0, b"adsc air trace 1\n");
    let link = idle_link(0);
    Trace {
        number: 0,
        at,
        setup: Setup { ready: false, link },
    }
}

// The answer to the next line, with its number and its end.
pub fn number_line(t: Trace, line: &[u8], out: &mut [u8]) -> Trace
    ensures { Adds (page out.old t.at) (bumped t.number) (numbered (bumped t.number) t.setup line.now) result.number result.setup (page out.new result.at) }
{
    let number = bump(t.number);
    let setup = t.setup;
    let a = put_decimal(out, t.at, number);
    let b = put_byte(out, a, 32);
    let r = answer_line(setup, line, out, b);
    let at = put_byte(out, r.at, 10);
    let next = r.setup;
    Trace {
        number,
        at,
        setup: next,
    }
}
