// A bench script from standard input, the flight log of its accepted calls to standard output.
ghost use Rattle.std.specs.Prelude.{◌≡◌};
ghost use Rattle.text.specs.Page.{page, Writes};
ghost use Rattle.log_blocks.specs.Tapes.{log_of, Appends};
ghost use Rattle.log_script.specs.Heard.{heard_line};
ghost use Rattle.log_script.specs.Notes.{note_on, line_on, desk_of, text_of, Leaves, entry_rec, settled, Turns};

use crate::line::{Kept, hear_line};
use bench::reply::Setup;
use ground_answer::fresh::idle_link;
use link::moves::TIMERS;
use log_blocks::{NotWritten, Tape, Unfit, append};
use script::room::{line_room, page_room};
use std::io::Stdin;
use text::{least, put_text};
use text_lines::input::{Ended, finish, pull_line, shown, start};

// The box, the block that is being written, and the place of the pen on the page of finished ones. A log that has `ended` takes no record more.
#[derive(Drop)]
#[derive(Clone, Copy)]
pub struct Recorder {
    pub setup: Setup,
    pub tape: Tape,
    pub at: usize,
    pub ended: bool,
}

fn settled(r: Recorder, a: Result<Tape, NotWritten>) -> Recorder
    ensures { result ≡ settled r a }
{
    match a {
        Ok(tape) => Recorder {
            tape,
            ended: false,
            ..r
        },
        Err(_) => Recorder { ended: true, ..r },
    }
}

// The record of a line into the block, if it has room.
fn put_entry(t: Tape, k: Kept, octets: &[u8], block: &mut [u8]) -> Result<Tape, NotWritten>
    ensures { Appends t block.old (entry_rec k octets.now) result block.new }
{
    let n = least(k.len, octets.len());
    append(t, block, k.kind, k.seconds, &octets[..n])
}

// Finishes the block, which then stands on the page.
fn turn_block(r: Recorder, block: &mut [u8], out: &mut [u8]) -> Recorder
    ensures { Turns r block.old (page out.old r.at) result block.new out.new }
{
    let f = log_blocks::finish(r.tape, block);
    let at = put_text(out, r.at, block);
    match f {
        Ok(Some(tape)) => Recorder {
            tape,
            at,
            ended: false,
            ..r
        },
        Ok(None) | Err(Unfit) => Recorder {
            at,
            ended: true,
            ..r
        },
    }
}

// The record of a line: one that doesn't fit opens the next block.
fn note(r: Recorder, k: Kept, octets: &[u8], block: &mut [u8], out: &mut [u8]) -> Recorder
    ensures { Leaves (note_on (desk_of r block.old) (entry_rec k octets.now)) (page out.old r.at) result block.new out.new }
{
    let first = put_entry(r.tape, k, octets, block);
    let Err(NotWritten::Full) = first else {
        return settled(r, first);
    };
    let turned = turn_block(r, block, out);
    let second = put_entry(turned.tape, k, octets, block);
    settled(turned, second)
}

// One line: its call is answered, and recorded where it is accepted.
fn add_line(r: Recorder, line: &[u8], block: &mut [u8], out: &mut [u8]) -> Recorder
    ensures { Leaves (line_on (desk_of r block.old) (heard_line r.setup line.now)) (page out.old r.at) result block.new out.new }
{
    let mut octets = line_room();
    let e = hear_line(r.setup, line, &mut octets);
    let next = Recorder {
        setup: e.setup,
        ..r
    };
    match e.kept {
        Some(k) if !r.ended => note(next, k, &octets, block, out),
        _ => next,
    }
}

// The recorder after the last line, and whether a read failed before the end of the input.
#[derive(Drop)]
pub struct Recorded {
    pub recorder: Recorder,
    pub failed: bool,
}

// Records every line of the input. A proved loop has to end, so it has as many turns as no run uses up.
fn run(
    stdin: Stdin,
    r: Recorder,
    chunk: &mut [u8],
    line: &mut [u8],
    block: &mut [u8],
    out: &mut [u8],
) -> Recorded {
    let mut e = r;
    let mut input = start();
    for _ in 0..u64::MAX {
        let l = pull_line(stdin, input, e.at, chunk, line, out);
        input = l.input;
        e.at = l.at;
        if !l.found {
            return Recorded {
                recorder: e,
                failed: l.failed,
            };
        }
        let n = shown(l.len, line);
        e = add_line(e, &line[..n], block, out);
    }
    Recorded {
        recorder: e,
        failed: true,
    }
}

// The block that is begun is the last one; none where it has no record.
fn close_log(r: Recorder, block: &mut [u8], out: &mut [u8]) -> Recorder
    ensures { Writes (page out.old r.at) (text_of (log_of (desk_of r block.old).log)) (page out.new result.at) }
{
    if r.tape.used == 0 {
        return r;
    }
    turn_block(r, block, out)
}

// Records the whole script.
pub fn record(stdin: Stdin) {
    let mut chunk = io::large_buffer();
    let mut line = [0u8; 4097];
    let mut block = [0u8; 512];
    let mut out = page_room();
    let link = idle_link([0; TIMERS]);
    let r = Recorder {
        setup: Setup { ready: false, link },
        tape: Tape { number: 0, used: 0 },
        at: 0,
        ended: false,
    };
    let e = run(stdin, r, &mut chunk, &mut line, &mut block, &mut out);
    let last = close_log(e.recorder, &mut block, &mut out);
    finish(
        Ended {
            at: last.at,
            failed: e.failed,
        },
        &out,
    );
}
