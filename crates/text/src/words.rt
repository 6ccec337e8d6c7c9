// Tables of words. A table is one text and where each word begins in it; a word ends where the next one begins.
ghost use Rattle.std.specs.Prelude.{◌≡◌};
ghost use Rattle.text.specs.Page.{page, Writes};
ghost use Rattle.text.specs.Words.{words_of, word_at, found_from, refused_text};

use crate::{least, put_decimal, put_text, same};

// Word n, or nothing past the last.
fn word_at<'a>(text: &'a [u8], begins: &[usize], n: usize) -> &'a [u8]
    ensures { result.now ≡ word_at (words_of text.now begins.now) n }
{
    if begins.len().saturating_sub(1) <= n {
        return &text[..0];
    }
    let to = least(begins[n + 1], text.len());
    let from = least(begins[n], to);
    &text[from..to]
}

// Writes word n.
pub fn put_word(out: &mut [u8], at: usize, text: &[u8], begins: &[usize], n: usize) -> usize
    ensures { Writes (page out.old at) (word_at (words_of text.now begins.now) n) (page out.new result) }
{
    put_text(out, at, word_at(text, begins, n))
}

// The number of a word, 0 where it is none: where words are looked for, word 0 is empty.
pub fn find(w: &[u8], text: &[u8], begins: &[usize]) -> usize
    ensures { result ≡ found_from 0 w.now (words_of text.now begins.now) }
{
    for n in 0..begins.len().saturating_sub(1) {
        if same(w, word_at(text, begins, n)) {
            return n;
        }
    }
    0
}

// A refusal.
pub fn put_refused(out: &mut [u8], at: usize, n: u8) -> usize
    ensures { Writes (page out.old at) (refused_text n) (page out.new result) }
{
    let a = put_text(out, at, b"refused ");
    put_decimal(out, a, n as u64)
}
