// What an answer puts under way: its entries that are for the dialogue service, each with its PDU and the number of its dialogue.
#![tactic(auto)]

ghost use Rattle.std.specs.Prelude.{◌≡◌, length, take};
ghost use Rattle.sending.specs.Ways.{way_of, kind_of, number_for, sent_as, sent_entry, sent_all, sent_said};

use channel::{Channel, push, write_letter};
use link::actions::*;
use link::acts::Acts;
use script::answer::rest_of;
use script::trace::bump;
use text::least;

// Kinds of letters are entries of an action list: 1, of which the ground's is a start request, to 4; and beside them an abort without a PDU, the user's.
pub const START: u8 = 1;

pub const END: u8 = 3;

pub const USER_ABORT: u8 = 5;

// What is under way, and the number of the dialogue of which more is sent.
#[derive(Clone, Copy, Drop)]
pub struct Way {
    pub held: Channel,
    pub number: u64,
}

#[tactic(auto, unfolding(crate::specs::Ways::kind_of))]
fn kind_of(c: u8, octets: &[u8]) -> u8
    ensures { result ≡ kind_of c octets.now }
{
    if c == ABORT_REQUEST && octets.len() == 0 {
        USER_ABORT
    } else {
        c
    }
}

// Start requests are numbered as they are sent.
#[tactic(auto, unfolding(crate::specs::Ways::number_for))]
fn number_for(up: bool, c: u8, number: u64) -> u64
    ensures { result ≡ number_for up c number }
{
    if up && c == START {
        bump(number)
    } else {
        number
    }
}

// One entry for the dialogue service, with its octets.
#[tactic(auto, unfolding(crate::specs::Ways::sent_as))]
fn send(w: Way, up: bool, c: u8, octets: &[u8]) -> Way
    ensures { way_of result ≡ sent_as up (way_of w) c octets.now }
{
    let number = number_for(up, c, w.number);
    let l = write_letter(up, number, kind_of(c, octets), octets);
    Way {
        held: push(w.held, l),
        number,
    }
}

#[tactic(auto, unfolding(crate::specs::Ways::sent_entry))]
fn send_entry(w: Way, up: bool, c: u8, octets: &[u8]) -> Way
    ensures { way_of result ≡ sent_entry up (way_of w) c octets.now }
{
    match c {
        1..=ABORT_REQUEST => send(w, up, c, octets),
        _ => w,
    }
}

// Every entry of an answer that is for the dialogue service; the octets go with the first.
pub fn send_all(w: Way, up: bool, acts: Acts, octets: &[u8]) -> Way
    ensures { way_of result ≡ sent_all up (way_of w) (take acts.n acts.list) octets.now (length octets.now) }
{
    let n = least(acts.n, 8);
    let mut left = octets.len();
    let mut way = w;
    for c in &acts.list[..n] {
        let m = least(left, octets.len());
        way = send_entry(way, up, *c, &octets[..m]);
        left = rest_of(*c, left);
    }
    way
}

// The same, of octets of which the first n go: those of an answer of either end, whatever room it has for them.
pub fn send_said(w: Way, up: bool, acts: Acts, n: usize, octets: &[u8]) -> Way
    ensures { way_of result ≡ sent_said up (way_of w) (take acts.n acts.list) (take n octets.now) }
{
    let m = least(n, octets.len());
    send_all(w, up, acts, &octets[..m])
}
