// The link record in 93 octets, for a host that keeps it in its own memory.
ghost use Rattle.std.specs.Prelude.{◌≡◌, ◌+◌, ◌≤◌, length};
ghost use Rattle.std.proofs.lemmas.List.Edits.{sets};
ghost use Rattle.link.specs.Names.{timers};
ghost use Rattle.octets.specs.Octets.{word_at, words};
ghost use Rattle.host_record.specs.RecordLayout.{five, interval_octets, Spelled, RECORD-OCTETS, link_of, rest_octets, record_octets, saved};

use crate::put::put_words;
use ground_answer::record::{Link, make};
use ground_tables::intervals::Intervals;
use host_numbers::copy::copy_into;
use link::moves::TIMERS;
use octets::{put_word, read_word};

pub const RECORD: usize = 93;

// Settings and seconds left.
#[derive(Drop)]
struct Numbers {
    setting: [u32; TIMERS],
    left: [u32; TIMERS],
}

// Of four octets alone the compiler knows that all are there.
fn word_in(s: &[u8], at: usize) -> u32
    requires { at + 4 ≤ length s.now }
    ensures { result ≡ word_at s.now at }
{
    read_word(&s[at..at + 4], 0)
}

fn words_in(s: &[u8], at: usize) -> [u32; TIMERS]
    requires { at + 40 ≤ length s.now }
    ensures { result ≡ words s.now at timers }
{
    let mut ws = [0u32; TIMERS];
    for (i, w) in ws.iter_mut().enumerate() {
        *w = word_in(s, at + i * 4);
    }
    ws
}

fn numbers_in(s: &[u8]) -> Numbers
    requires { length s.now ≡ RECORD-OCTETS }
    ensures { Spelled s.now result.setting result.left }
{
    Numbers {
        setting: words_in(s, 0),
        left: words_in(s, 40),
    }
}

// The record that as many octets as it has spell, good or not.
fn spell(s: &[u8]) -> Link
    requires { length s.now ≡ RECORD-OCTETS }
    ensures { result ≡ link_of s.now }
{
    let n = numbers_in(s);
    let at = [s[80], s[81], s[82], s[83], s[84]];
    let interval = Intervals {
        asked: word_in(s, 85),
        force: word_in(s, 89),
    };
    make(n.setting, n.left, at, interval)
}

// The same of any octets: those that are not there are 0.
pub fn load(s: &[u8]) -> Link
    ensures { result ≡ link_of s.now }
{
    if s.len() == RECORD {
        return spell(s);
    }
    let mut whole = [0u8; RECORD];
    copy_into(s, &mut whole);
    spell(&whole)
}

fn put_states(out: &mut [u8], at: [u8; 5])
    requires { length out.old ≡ RECORD-OCTETS }
    ensures { out.new ≡ sets out.old 80 (five at) }
{
    out[80..85].copy_from_slice(&at);
}

fn put_intervals(out: &mut [u8], i: Intervals)
    ensures { out.new ≡ sets out.old 85 (interval_octets i) }
{
    put_word(out, 85, i.asked);
    put_word(out, 89, i.force);
}

// All that a call can change.
fn put_rest(l: Link, out: &mut [u8])
    requires { length out.old ≡ RECORD-OCTETS }
    ensures { out.new ≡ sets out.old 40 (rest_octets l) }
{
    put_words(out, 40, l.left);
    put_states(out, l.at);
    put_intervals(out, l.interval);
}

fn store(l: Link, out: &mut [u8])
    requires { length out.old ≡ RECORD-OCTETS }
    ensures { out.new ≡ record_octets l }
{
    put_words(out, 0, l.setting);
    put_rest(l, out);
}

// Octets that are no record's stay.
pub fn save(l: Link, out: &mut [u8])
    ensures { out.new ≡ saved l out.old }
{
    if out.len() == RECORD {
        store(l, out);
    }
}

// The same where the settings stand in the octets already. By its test the compiler knows how many octets there are.
pub(crate) fn save_rest(l: Link, out: &mut [u8])
    requires { l.setting ≡ words out.old 0 timers }
    ensures { out.new ≡ saved l out.old }
{
    if out.len() != RECORD {
        return;
    }
    put_rest(l, out);
}
