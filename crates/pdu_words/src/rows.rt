// The interpreter of rows. specs/AirRows.antt and specs/GroundRows.antt have the rows with texts in place of the numbers of words, and the proofs compare.
ghost use Rattle.std.specs.Prelude.{◌≡◌, get_or};
ghost use Rattle.text.specs.Page.{page, Writes};
ghost use Rattle.pdu_words.specs.Rows.{shows_kind, passes, chosen, row_text, rows_text};
ghost use Rattle.pdu_words.specs.CodeRows.{guard_of, row_of, rows_of};

use crate::page::Page;
use crate::ways::{Way, put_way};
use crate::words::put_name;
use host_numbers::numbers::number;

// What is asked of a PDU's number at a place: nothing; that it has a bit; that it is some number; that it is not; that its bits in a mask are some number.
#[derive(Clone, Copy)]
pub(crate) enum Guard {
    Always,
    Bit(usize, u32),
    Same(usize, u32),
    Other(usize, u32),
    Masked(usize, u32, u32),
}

// The kinds that show a row, a bit for each; its guard; its label, a word; the way in which a number is shown, and the place of the number; its unit, a word.
#[derive(Clone, Copy)]
pub(crate) struct Row(
    pub(crate) u32,
    pub(crate) Guard,
    pub(crate) usize,
    pub(crate) Way,
    pub(crate) usize,
    pub(crate) usize,
);

#[tactic(auto, unfolding(crate::specs::Rows::shows_kind))]
fn shows_kind(kinds: u32, kind: u32) -> bool
    ensures { result ≡ shows_kind kinds kind }
{
    kind < 12 && (kinds >> kind) % 2 == 1
}

#[tactic(auto, unfolding(crate::specs::Rows::passes, crate::specs::CodeRows::guard_of))]
fn does_pass(guard: Guard, f: &[u32]) -> bool
    ensures { result ≡ passes (guard_of guard).test (get_or f.now (guard_of guard).place 0) }
{
    match guard {
        Guard::Always => true,
        Guard::Bit(at, m) => m < 32 && (number(f, at) >> m) % 2 == 1,
        Guard::Same(at, m) => number(f, at) == m,
        Guard::Other(at, m) => number(f, at) != m,
        Guard::Masked(at, mask, m) => number(f, at) & mask == m,
    }
}

#[tactic(auto, unfolding(crate::specs::Rows::chosen, crate::specs::CodeRows::row_of))]
fn is_chosen(row: Row, f: &[u32]) -> bool
    ensures { result ≡ chosen (row_of row) f.now }
{
    shows_kind(row.0, number(f, 0)) && does_pass(row.1, f)
}

fn put_row(out: &mut Page, at: usize, row: Row, f: &[u32], items: &[u8]) -> usize
    ensures { Writes (page out.old at) (row_text (row_of row) f.now items.now) (page out.new result) }
{
    if !is_chosen(row, f) {
        return at;
    }
    let Row(_, _, label, way, place, unit) = row;
    let a = put_name(out, at, label);
    let a = put_way(out, a, way, number(f, place), items);
    put_name(out, a, unit)
}

// Row after row, of those that are shown of the PDU with the numbers f and the list `items`.
pub(crate) fn put_rows(out: &mut Page, at: usize, table: &[Row], f: &[u32], items: &[u8]) -> usize
    ensures { Writes (page out.old at) (rows_text (rows_of table.now) f.now items.now) (page out.new result) }
{
    let mut a = at;
    for row in table {
        a = put_row(out, a, *row, f, items);
    }
    a
}
