// The ways in which a number of a PDU is shown.
ghost use Rattle.std.specs.Prelude.{◌≡◌};
ghost use Rattle.text.specs.Page.{page, Writes};
ghost use Rattle.pdu_words.specs.Ways.{two_digits, three_digits, tenth_text, seconds_text, tenths_text, thousandth_text, thousandths_text, mach_text, time_text, sign_text, size_of, signed_text, tens_text, quarters_text, octets_text, ending, nth_text, way_text};
ghost use Rattle.pdu_words.specs.CodeRows.{way_of};

use crate::lists::put_list;
use crate::page::Page;
use crate::words::put_listed;
use text::words::put_word;
use text::{put_byte, put_decimal, put_hex, put_text};

// The ways (specs/Ways.antt says what each is), with a list of words by its number; entries of list 0 are names.
#[derive(Clone, Copy)]
pub(crate) enum Way {
    Nothing,
    Number,
    Two,
    Three,
    Seconds,
    Tens,
    Octets,
    Word(u8),
    Nth,
    List(u8),
    Tenths,
    Signed,
    Thousandths,
    Quarters,
    MachSteps,
    TimeSteps,
}

// Its last two digits.
fn put_two(out: &mut Page, at: usize, n: u32) -> usize
    ensures { Writes (page out.old at) (two_digits n) (page out.new result) }
{
    let a = put_byte(out, at, 48 + (n / 10 % 10) as u8);
    put_byte(out, a, 48 + (n % 10) as u8)
}

// Its last three.
fn put_three(out: &mut Page, at: usize, n: u32) -> usize
    ensures { Writes (page out.old at) (three_digits n) (page out.new result) }
{
    let a = put_byte(out, at, 48 + (n / 100 % 10) as u8);
    put_two(out, a, n)
}

// A point and the tenths behind it.
fn put_tenth(out: &mut Page, at: usize, n: u32) -> usize
    ensures { Writes (page out.old at) (tenth_text n) (page out.new result) }
{
    let a = put_byte(out, at, b'.');
    put_byte(out, a, 48 + (n % 10) as u8)
}

// Tenths of seconds of an angle.
fn put_seconds(out: &mut Page, at: usize, n: u32) -> usize
    ensures { Writes (page out.old at) (seconds_text n) (page out.new result) }
{
    let a = put_two(out, at, n / 10);
    put_tenth(out, a, n)
}

// Tenths of a degree of a track or a heading.
fn put_tenths(out: &mut Page, at: usize, n: u32) -> usize
    ensures { Writes (page out.old at) (tenths_text n) (page out.new result) }
{
    let a = put_decimal(out, at, (n / 10) as u64);
    put_tenth(out, a, n)
}

// A point and the thousandths behind it: two decimals, and a third that is not 0.
fn put_thousandth(out: &mut Page, at: usize, n: u32) -> usize
    ensures { Writes (page out.old at) (thousandth_text n) (page out.new result) }
{
    let a = put_byte(out, at, b'.');
    let a = put_two(out, a, n / 10);
    if n % 10 == 0 {
        return a;
    }
    put_byte(out, a, 48 + (n % 10) as u8)
}

// Thousandths of a Mach number.
fn put_thousandths(out: &mut Page, at: usize, n: u32) -> usize
    ensures { Writes (page out.old at) (thousandths_text n) (page out.new result) }
{
    let a = put_decimal(out, at, (n / 1000) as u64);
    put_thousandth(out, a, n)
}

// Steps of 0.005 Mach, in which 002 counts changes; none are not shown.
fn put_mach(out: &mut Page, at: usize, n: u32) -> usize
    ensures { Writes (page out.old at) (mach_text n) (page out.new result) }
{
    if n == 0 {
        return at;
    }
    let a = put_text(out, at, b", mach ");
    let a = put_decimal(out, a, (n / 200) as u64);
    put_thousandth(out, a, n % 200 * 5)
}

// Steps of 15 minutes, in which 002 counts the time of an extended profile; none are not shown.
fn put_time(out: &mut Page, at: usize, n: u32) -> usize
    ensures { Writes (page out.old at) (time_text n) (page out.new result) }
{
    if n == 0 {
        return at;
    }
    let a = put_text(out, at, b", time interval ");
    let a = put_decimal(out, a, n as u64 * 15);
    put_text(out, a, b" minutes")
}

// The sign of a number in two's complement.
fn put_sign(out: &mut Page, at: usize, n: u32) -> usize
    ensures { Writes (page out.old at) (sign_text n) (page out.new result) }
{
    if n < 2147483648 {
        return at;
    }
    put_byte(out, at, b'-')
}

// And its size.
fn size_of(n: u32) -> u32
    ensures { result ≡ size_of n }
{
    if n < 2147483648 {
        return n;
    }
    (4294967296 - n as u64) as u32
}

fn put_signed(out: &mut Page, at: usize, n: u32) -> usize
    ensures { Writes (page out.old at) (signed_text n) (page out.new result) }
{
    let a = put_sign(out, at, n);
    put_decimal(out, a, size_of(n) as u64)
}

// Tens, in which 002 counts levels and vertical rates.
fn put_tens(out: &mut Page, at: usize, n: u32) -> usize
    ensures { Writes (page out.old at) (tens_text n) (page out.new result) }
{
    let a = put_sign(out, at, n);
    put_decimal(out, a, size_of(n) as u64 * 10)
}

// Quarters, in which 002 counts temperatures.
fn put_quarters(out: &mut Page, at: usize, n: u32) -> usize
    ensures { Writes (page out.old at) (quarters_text n) (page out.new result) }
{
    let a = put_sign(out, at, n);
    let size = size_of(n);
    let a = put_decimal(out, a, (size / 4) as u64);
    put_word(out, a, b".25.5.75", &[0, 0, 3, 5, 8], (size % 4) as usize)
}

// Its last three octets in hexadecimal.
fn put_octets(out: &mut Page, at: usize, n: u32) -> usize
    ensures { Writes (page out.old at) (octets_text n) (page out.new result) }
{
    put_hex(
        out,
        at,
        &[
            (n / 65536 % 256) as u8,
            (n / 256 % 256) as u8,
            (n % 256) as u8,
        ],
    )
}

// What makes 2 into 2nd: 11, 12 and 13 go with th.
fn ending_of(n: u32) -> usize
    ensures { result ≡ ending n }
{
    if n / 10 % 10 == 1 {
        return 0;
    }
    let last = n % 10;
    if last < 4 {
        return last as usize;
    }
    0
}

// With which reports an element comes: every one, or every nth.
fn put_nth(out: &mut Page, at: usize, n: u32) -> usize
    ensures { Writes (page out.old at) (nth_text n) (page out.new result) }
{
    if n == 1 {
        return put_text(out, at, b" every report");
    }
    let a = put_text(out, at, b" every ");
    let a = put_decimal(out, a, n as u64);
    let a = put_word(out, a, b"thstndrd", &[0, 2, 4, 6, 8], ending_of(n));
    put_text(out, a, b" report")
}

// A number in one of the ways. `items` are the octets of the PDU's list.
#[tactic(auto, unfolding(crate::specs::Ways::way_text, crate::specs::CodeRows::way_of))]
pub(crate) fn put_way(out: &mut Page, at: usize, way: Way, n: u32, items: &[u8]) -> usize
    ensures { Writes (page out.old at) (way_text (way_of way) n items.now) (page out.new result) }
{
    match way {
        Way::Nothing => at,
        Way::Number => put_decimal(out, at, n as u64),
        Way::Two => put_two(out, at, n),
        Way::Three => put_three(out, at, n),
        Way::Seconds => put_seconds(out, at, n),
        Way::Tens => put_tens(out, at, n),
        Way::Octets => put_octets(out, at, n),
        Way::Word(list) => put_listed(out, at, list, n),
        Way::Nth => put_nth(out, at, n),
        Way::List(list) => put_list(out, at, list, n, items),
        Way::Tenths => put_tenths(out, at, n),
        Way::Signed => put_signed(out, at, n),
        Way::Thousandths => put_thousandths(out, at, n),
        Way::Quarters => put_quarters(out, at, n),
        Way::MachSteps => put_mach(out, at, n),
        Way::TimeSteps => put_time(out, at, n),
    }
}
