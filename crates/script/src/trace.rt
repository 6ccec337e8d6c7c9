// What the traces of both sides share: the numbers of lines, and the end.
ghost use Rattle.std.specs.Prelude.{◌≡◌};
ghost use Rattle.text.specs.Page.{page, Writes};
ghost use Rattle.script.specs.Trace.{bumped, end_text, Closes};

use text::{put_byte, put_decimal, put_text};
use text_lines::input::Ended;

// Line numbers stop at the largest that 64 bits hold.
pub fn bump(n: u64) -> u64
    ensures { result ≡ bumped n }
{
    if n < 18446744073709551615 {
        return n + 1;
    }
    n
}

// The end of a trace: how many lines there were.
fn put_end(out: &mut [u8], at: usize, n: u64) -> usize
    ensures { Writes (page out.old at) (end_text n) (page out.new result) }
{
    let a = put_text(out, at, b"end ");
    let b = put_decimal(out, a, n);
    put_byte(out, b, 10)
}

// The last line of a trace, which stands there only if the script was read to its end.
pub fn close(out: &mut [u8], at: usize, n: u64, failed: bool) -> Ended
    ensures { Closes n failed (page out.old at) result out.new }
{
    if failed {
        return Ended { at, failed };
    }
    let a = put_end(out, at, n);
    Ended { at: a, failed }
}
