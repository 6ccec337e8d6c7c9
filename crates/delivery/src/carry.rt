// The oldest letters, one after the other.
ghost use Rattle.std.specs.Prelude.{◌≡◌, ◌*◌};
ghost use Rattle.text.specs.Page.{page, Writes};
ghost use Rattle.world.specs.World.{world_of};
ghost use Rattle.delivery.specs.Hearing.{Carries};
ghost use Rattle.delivery.specs.Deliveries.{word_for, head_text, carried_one, carried, LETTER-MOST, Flies};

use crate::hear::{Carried, came, come};
use channel::{Letter, oldest, pass};
use script::answer::put_spaced;
use text::words::put_word;
use text::{put_byte, put_decimal};
use world::state::World;

// The world after a line, and the place of the pen after its text.
#[derive(Drop)]
pub struct Flown {
    pub world: World,
    pub at: usize,
}

// The word for a letter among those of both ends.
#[tactic(auto, unfolding(crate::specs::Deliveries::word_for))]
fn word_for(l: Letter) -> usize
    ensures { result ≡ word_for l }
{
    let k = l.kind as usize;
    if l.up { k } else { k + 5 }
}

// The number of the line and of the letter, the end that it is for, and what that end hears.
fn put_head(out: &mut [u8], at: usize, number: u64, i: u64, l: Letter) -> usize
    ensures { Writes (page out.old at) (head_text number i l) (page out.new result) }
{
    let a = put_decimal(out, at, number);
    let b = put_byte(out, a, 46);
    let c = put_decimal(out, b, i);
    let d = put_word(
        out,
        c,
        b" air start-ind air data air end-ind air ground-abort air peer-abort ground start-cnf ground data ground end-cnf ground air-abort ground peer-abort",
        &[0, 0, 14, 23, 35, 52, 67, 84, 96, 111, 128, 146],
        word_for(l),
    );
    let e = put_spaced(out, d, came(&l));
    put_byte(out, e, 32)
}

// The oldest letter is heard, or lost; where it stays under way, nothing is changed.
fn carry_one(w: World, number: u64, i: u64, hear: bool, out: &mut [u8], at: usize) -> Carried
    ensures { Carries LETTER-MOST (carried_one hear number i (world_of w)) (page out.old at) result (page out.new result.at) }
{
    let l = oldest(w.held);
    let a = put_head(out, at, number, i, l);
    let next = World {
        held: pass(w.held),
        ..w
    };
    let c = come(next, l, hear, out, a);
    let e = put_byte(out, c.at, 10);
    Carried {
        world: if c.stays { w } else { c.world },
        at: e,
        stays: c.stays,
    }
}

// The oldest k letters, a line for each, as long as none stays.
pub fn carry(w: World, number: u64, k: u64, hear: bool, out: &mut [u8], at: usize) -> Flown
    ensures { Flies (k * LETTER-MOST) (carried hear k number 0 (world_of w)) (page out.old at) (world_of result.world) (page out.new result.at) }
{
    let mut world = w;
    let mut a = at;
    for i in 0..k {
        let c = carry_one(world, number, i + 1, hear, out, a);
        world = c.world;
        a = c.at;
        if c.stays {
            return Flown { world, at: a };
        }
    }
    Flown { world, at: a }
}
