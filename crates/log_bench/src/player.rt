// A flight log from standard input, the trace of its records to standard output.
ghost use Rattle.std.specs.Prelude.{◌≡◌, ◌≤◌, true, false, length, IfOk};
ghost use Rattle.bench.specs.declared.reply.Setup.{Setup};
ghost use Rattle.text.specs.Page.{page};
ghost use Rattle.log_bench.specs.Logs.{outcome, ended, Ends, Closes};

use crate::show::show_block;
use bench::trace::{Trace, begin};
use log_blocks::{BLOCK, BLOCKS};
use log_play::block::play_block;
use refusals::NOT_READABLE;
use script::room::page_room;
use script::trace::close;
use std::io;
use std::io::{Read, Stdin};
use text::words::put_refused;
use text::{put_byte, put_decimal, put_text};
use text_lines::input::{Ended, finish};

// The next block: how many octets were read, fewer where the log ends. Each read brings an octet at the least, so the loop has turns enough.
fn pull_block(stdin: Stdin, block: &mut [u8]) -> io::Result<usize>
    ensures { IfOk result (λ n. n ≤ length block.new) }
{
    let mut reader = stdin;
    let mut len: usize = 0;
    for _ in 0..BLOCK {
        if len >= block.len() {
            break;
        }
        let got = reader.read(&mut block[len..])?;
        if got == 0 {
            break;
        }
        len += got;
    }
    Ok(len)
}

// How a log ended: its trace up to there, the refusal or 0 and the number of the block that it is of, and whether a read failed before the end: the trace is written in both cases.
#[derive(Drop)]
pub struct LogEnd {
    pub trace: Trace,
    pub refusal: u8,
    pub block: u32,
    pub failed: bool,
}

// The end of a log: one that has no record is refused.
fn end_log(t: Trace, block: u32) -> LogEnd
    ensures { (result.failed ≡ false) × (outcome result.trace.number result.trace.setup result.refusal result.block ≡ ended block t.number t.setup) }
{
    let refusal = if t.setup.ready { 0 } else { NOT_READABLE };
    LogEnd {
        trace: t,
        refusal,
        block,
        failed: false,
    }
}

// A read that fails ends the trace before the log's end.
fn cut_off(t: Trace, block: u32) -> LogEnd
    ensures { result.failed ≡ true }
{
    LogEnd {
        trace: t,
        refusal: 0,
        block,
        failed: true,
    }
}

// Plays every block of the log. Behind the last number none is in turn, so the loop has turns enough.
fn run(stdin: Stdin, t: Trace, block: &mut [u8], out: &mut [u8]) -> LogEnd
    requires { 131072 ≤ length out.old }
    ensures { Ends 0 t.number t.setup (outcome result.trace.number result.trace.setup result.refusal result.block) result.failed }
{
    let mut e = t;
    for k in 0..=BLOCKS {
        let Ok(n) = pull_block(stdin, block) else {
            return cut_off(e, k);
        };
        if n == 0 {
            return end_log(e, k);
        }
        let b = play_block(e.setup, &block[..n], k);
        if b.refusal != 0 {
            return LogEnd {
                trace: e,
                refusal: b.refusal,
                block: k,
                failed: false,
            };
        }
        let shown = show_block(e, &block[..n], out);
        e = Trace {
            setup: b.setup,
            ..shown
        };
    }
    cut_off(e, BLOCKS + 1)
}

// The last line of the trace, which stands there only if the log was read to its end.
fn close_log(out: &mut [u8], at: usize, n: u64, refusal: u8, block: u32, failed: bool) -> Ended
    ensures { (b : Setup) → Closes (outcome n b refusal block) failed (page out.old at) result out.new }
{
    if failed {
        return Ended { at, failed };
    }
    if refusal == 0 {
        return close(out, at, n, false);
    }
    let a = put_refused(out, at, refusal);
    let b = put_text(out, a, b" block ");
    let c = put_decimal(out, b, block as u64);
    let e = put_byte(out, c, 10);
    Ended { at: e, failed }
}

// Plays the whole log.
pub fn play(stdin: Stdin) {
    let mut block = [0u8; 512];
    let mut out = page_room();
    let t = begin(&mut out);
    let r = run(stdin, t, &mut block, &mut out);
    let e = close_log(
        &mut out,
        r.trace.at,
        r.trace.number,
        r.refusal,
        r.block,
        r.failed,
    );
    finish(e, &out);
}
