// An answer as text: `ok` and its actions in order, or `refused N`. Over the words of any side.
ghost use Rattle.std.specs.Prelude.{◌≡◌, ◌≤◌, length, take};
ghost use Rattle.link.specs.Names.{STOP};
ghost use Rattle.text.specs.Page.{page, Writes};
ghost use Rattle.text.specs.Words.{words_of};
ghost use Rattle.script.specs.Entries.{names, spaced, timer_entry, entry_text, rest_of, entries_of, Briefs};

use link::actions::*;
use link::acts::Acts;
use text::words::{put_refused, put_word};
use text::{least, put_byte, put_decimal, put_hex, put_text};

// What is said beside the octets that go: the refusal, 0 for none, the reason that an abort indication shows, and the actions.
#[derive(Drop)]
pub struct Brief {
    pub refusal: u8,
    pub reason: u32,
    pub acts: Acts,
}

// A space and octets, or nothing.
pub fn put_spaced(out: &mut [u8], at: usize, s: &[u8]) -> usize
    ensures { Writes (page out.old at) (spaced s.now) (page out.new result) }
{
    if s.len() == 0 {
        return at;
    }
    let a = put_byte(out, at, 32);
    put_hex(out, a, s)
}

// A stop or a start, with the name of the timer.
fn put_timer_entry(out: &mut [u8], at: usize, timers: &[u8], starts: &[usize], c: u8) -> usize
    requires { STOP ≤ c }
    ensures { Writes (page out.old at) (timer_entry (words_of timers.now starts.now) c) (page out.new result) }
{
    if c < START {
        let a = put_text(out, at, b" stop ");
        return put_word(out, a, timers, starts, (c - STOP) as usize);
    }
    let a = put_text(out, at, b" start ");
    put_word(out, a, timers, starts, (c - START) as usize)
}

// One entry; `sent` goes if it is for the dialogue service, and `came` are the octets that came with the call.
fn put_entry(
    out: &mut [u8],
    at: usize,
    words: &[u8],
    begins: &[usize],
    timers: &[u8],
    starts: &[usize],
    c: u8,
    sent: &[u8],
    reason: u32,
    came: &[u8],
) -> usize
    ensures { Writes (page out.old at) (entry_text (names (words_of words.now begins.now) (words_of timers.now starts.now)) c sent.now reason came.now) (page out.new result) }
{
    if STOP <= c {
        return put_timer_entry(out, at, timers, starts, c);
    }
    let a = put_word(out, at, words, begins, c as usize);
    match c {
        1..=ABORT_REQUEST => put_spaced(out, a, sent),
        IND => put_spaced(out, a, came),
        ABORT_IND => put_decimal(out, a, reason as u64),
        _ => a,
    }
}

// How many octets are left to go after an entry.
pub fn rest_of(c: u8, k: usize) -> usize
    ensures { result ≡ rest_of c k }
{
    match c {
        1..=ABORT_REQUEST => 0,
        _ => k,
    }
}

fn put_entries(
    out: &mut [u8],
    at: usize,
    words: &[u8],
    begins: &[usize],
    timers: &[u8],
    starts: &[usize],
    b: Brief,
    sent: &[u8],
    came: &[u8],
) -> usize
    ensures { Writes (page out.old at) (entries_of (names (words_of words.now begins.now) (words_of timers.now starts.now)) (take b.acts.n b.acts.list) sent.now (length sent.now) b.reason came.now) (page out.new result) }
{
    let n = least(b.acts.n, 8);
    let mut left = sent.len();
    let mut a = at;
    for c in &b.acts.list[..n] {
        let m = least(left, sent.len());
        a = put_entry(
            out,
            a,
            words,
            begins,
            timers,
            starts,
            *c,
            &sent[..m],
            b.reason,
            came,
        );
        left = rest_of(*c, left);
    }
    a
}

// An answer in the words of a side, whose entries and timers are tables of words; `sent` goes, and `came` are the octets that came with the call.
pub fn put_brief(
    out: &mut [u8],
    at: usize,
    words: &[u8],
    begins: &[usize],
    timers: &[u8],
    starts: &[usize],
    b: Brief,
    sent: &[u8],
    came: &[u8],
) -> usize
    ensures { Briefs (names (words_of words.now begins.now) (words_of timers.now starts.now)) b sent.now came.now (page out.old at) (page out.new result) }
{
    let refusal = b.refusal;
    if refusal != 0 {
        return put_refused(out, at, refusal);
    }
    let a = put_text(out, at, b"ok");
    put_entries(out, a, words, begins, timers, starts, b, sent, came)
}
