// The list of an aircraft PDU: names of ground systems, eight octets each, or the entries of a noncompliance, an octet each.
ghost use Rattle.std.specs.Prelude.{◌≡◌};
ghost use Rattle.text.specs.Page.{page, Writes};
ghost use Rattle.pdu_words.specs.Ways.{plain, letter, mark, name_item, way_text};
ghost use Rattle.pdu_words.specs.CodeRows.{item_of, octets_in, entries_of};

use crate::page::Page;
use crate::words::put_listed;
use text::{put_byte, put_octet, put_text};

// An octet of a name that breaks no line and no list.
#[tactic(auto, unfolding(crate::specs::Ways::plain))]
fn is_plain(c: u8) -> bool
    ensures { result ≡ plain c }
{
    c != b',' && c != b'\\' && 33 <= c && c < 127
}

// Any other is shown by its number.
fn put_letter(out: &mut Page, at: usize, c: u8) -> usize
    ensures { Writes (page out.old at) (letter c) (page out.new result) }
{
    if is_plain(c) {
        return put_byte(out, at, c);
    }
    let a = put_text(out, at, b"\\x");
    put_octet(out, a, c)
}

fn put_mark(out: &mut Page, at: usize, i: usize) -> usize
    ensures { Writes (page out.old at) (mark i) (page out.new result) }
{
    if i == 0 {
        return put_text(out, at, b": ");
    }
    put_text(out, at, b", ")
}

// Octet i of names: eight make one.
fn put_name_item(out: &mut Page, at: usize, i: usize, c: u8) -> usize
    ensures { Writes (page out.old at) (name_item i c) (page out.new result) }
{
    if i % 8 == 0 {
        let a = put_mark(out, at, i);
        return put_letter(out, a, c);
    }
    put_letter(out, at, c)
}

// Octet i of a list: of names where the list of words is 0, else a word of it.
fn put_item(out: &mut Page, at: usize, list: u8, i: usize, c: u8) -> usize
    ensures { Writes (page out.old at) (item_of list i c) (page out.new result) }
{
    if list == 0 {
        return put_name_item(out, at, i, c);
    }
    let a = put_mark(out, at, i);
    put_listed(out, a, list, c as u32)
}

// How many octets a list of `count` entries has.
fn octets_in(list: u8, count: u32) -> usize
    ensures { result ≡ octets_in list count }
{
    let n = count as usize;
    if list == 0 { n * 8 } else { n }
}

pub(crate) fn put_list(out: &mut Page, at: usize, list: u8, count: u32, items: &[u8]) -> usize
    ensures { Writes (page out.old at) (way_text (entries_of list) count items.now) (page out.new result) }
{
    let n = octets_in(list, count).min(items.len());
    let mut a = at;
    for (i, c) in items[..n].iter().enumerate() {
        a = put_item(out, a, list, i, *c);
    }
    a
}
