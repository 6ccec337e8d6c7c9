// The clock call on the host's one link record, which is lent and changed in place. A thin crate: the record's fields can change below without touching it.
#![tactic(auto)]

ghost use Rattle.std.specs.Prelude.{◌≡◌};
ghost use Rattle.ground_answer.specs.Clock.{elapsed};

use ground_answer::answer::{Answer, Said};
use ground_answer::clock::elapse;
use ground_answer::record::Link;

// An elapse of n seconds. A refused one leaves the record as it was.
pub fn clock(link: &mut Link, n: u32) -> Said
    ensures { (link.new ≡ (elapsed link.old n).link) × (result ≡ (elapsed link.old n).said) }
{
    let was = *link;
    let a = elapse(was, n);
    *link = a.link;
    a.said
}

// An elapse by value over the lent one: a local record is lent for the one call.
pub fn elapse_lent(l: Link, n: u32) -> Answer
    ensures { result ≡ elapsed l n }
{
    let mut m = l;
    let said = clock(&mut m, n);
    Answer { link: m, said }
}
