// The lines of a log's records, each as `adsc` answers its call.
ghost use Rattle.std.specs.Prelude.{◌≡◌, ◌+◌, ◌≤◌, length};
ghost use Rattle.text.specs.Page.{page};
ghost use Rattle.script.specs.Trace.{bumped, Adds, Stands};
ghost use Rattle.log_blocks.specs.Places.{end_of, from};
ghost use Rattle.log_blocks.specs.Record.{rec};
ghost use Rattle.log_bench.specs.Shown.{record_reply, Turns, Shows};

use bench::trace::Trace;
use bench_line::answer::put_answer;
use log_blocks::record_at;
use log_play::record::play_record;
use script::trace::bump;
use text::{least, put_byte, put_decimal};
use text_lines::input::{Ended, FULL, finish};

// The line of the next record.
fn number_record(t: Trace, kind: u8, seconds: u32, octets: &[u8], out: &mut [u8]) -> Trace
    requires { length octets.now ≤ 129 }
    ensures { Adds (page out.old t.at) (bumped t.number) (record_reply (bumped t.number) t.setup (rec kind seconds octets.now)) result.number result.setup (page out.new result.at) }
{
    let number = bump(t.number);
    let s = play_record(t.setup, kind, seconds, octets);
    let n = least(s.came, octets.len());
    let a = put_decimal(out, t.at, number);
    let b = put_byte(out, a, 32);
    let e = put_answer(out, b, s.said, &octets[..n]);
    let at = put_byte(out, e, 10);
    Trace {
        number,
        at,
        setup: s.setup,
    }
}

// A record on a page that has room: what stood there stays, and its whole line stands behind it.
fn add_record(t: Trace, kind: u8, seconds: u32, octets: &[u8], out: &mut [u8]) -> Trace
    requires { (t.at + 34100 ≤ length out.old) × (length octets.now ≤ 129) }
    ensures { Stands (page out.old t.at) (bumped t.number) (record_reply (bumped t.number) t.setup (rec kind seconds octets.now)) result.number result.setup (page out.new result.at) }
{
    number_record(t, kind, seconds, octets, out)
}

// A page with room for another line: a full one is written out.
fn turn_page(t: Trace, out: &[u8]) -> Trace
    ensures { Turns t result }
{
    if t.at < FULL {
        return t;
    }
    finish(
        Ended {
            at: t.at,
            failed: false,
        },
        out,
    );
    Trace { at: 0, ..t }
}

// The lines of a block that is good.
pub(crate) fn show_block(t: Trace, block: &[u8], out: &mut [u8]) -> Trace
    requires { (length block.now ≡ 512) × (end_of block.now ≤ 510) × (131072 ≤ length out.old) }
    ensures { Shows (from block.now 6) t.number t.setup result.number result.setup }
{
    let mut e = t;
    let mut at: usize = 6;
    while let Ok(Some(r)) = record_at(block, at) {
        e = turn_page(e, out);
        e = add_record(e, r.kind, r.seconds, &block[r.start..r.next], out);
        at = r.next;
    }
    e
}
