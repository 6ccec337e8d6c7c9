// What both ends hear, the ground first.
ghost use Rattle.std.specs.Prelude.{◌≡◌};
ghost use Rattle.text.specs.Page.{page};
ghost use Rattle.world.specs.World.{world_of};
ghost use Rattle.delivery.specs.Deliveries.{Flies};
ghost use Rattle.flight_line.specs.Users.{ANSWER-MOST};
ghost use Rattle.flight_line.specs.Boths.{both_of, both_hear, BOTH-MOST, both_reply, elapse_reply, cut_reply};

use crate::user::refuse;
use delivery::answers::{put_air, put_ground};
use delivery::carry::Flown;
use pdu_parts::lists::no_list;
use text::put_text;
use world::air_turn::turn_air;
use world::ground_turn::turn_ground;
use world::state::World;

// The world after both, and what each said.
#[derive(Drop)]
pub struct Both {
    pub world: World,
    pub ground_end: ground_answer::answer::Said,
    pub air: air_answer::answer::Said,
}

fn hear_both(w: World, g: ground::call::Call, a: air::call::Call) -> Both
    ensures { both_of result ≡ both_hear (world_of w) g a }
{
    let t = turn_ground(w, g, b"");
    let u = turn_air(t.world, t.world.taken, a, no_list(), b"");
    Both {
        world: u.world,
        ground_end: t.said,
        air: u.said,
    }
}

fn tell_both(b: Both, out: &mut [u8], at: usize) -> Flown
    ensures { Flies BOTH-MOST (both_reply (both_of b)) (page out.old at) (world_of result.world) (page out.new result.at) }
{
    let a = put_text(out, at, b"ground ");
    let e = put_ground(out, a, b.ground_end, b"");
    let c = put_text(out, e, b" air ");
    Flown {
        at: put_air(out, c, b.air, b""),
        world: b.world,
    }
}

// Seconds pass at both ends, unless one refuses.
pub fn elapse_both(w: World, n: u32, out: &mut [u8], at: usize) -> Flown
    ensures { Flies ANSWER-MOST (elapse_reply (world_of w) n) (page out.old at) (world_of result.world) (page out.new result.at) }
{
    let b = hear_both(w, ground::call::Call::Elapse(n), air::call::Call::Elapse(n));
    let first = b.ground_end.refusal;
    if first != 0 {
        return refuse(w, first, out, at);
    }
    let second = b.air.refusal;
    if second != 0 {
        return refuse(w, second, out, at);
    }
    tell_both(b, out, at)
}

// Both ends hear that the provider failed.
pub fn cut_both(w: World, out: &mut [u8], at: usize) -> Flown
    ensures { Flies BOTH-MOST (cut_reply (world_of w)) (page out.old at) (world_of result.world) (page out.new result.at) }
{
    let b = hear_both(w, ground::call::Call::Down, air::call::Call::Down);
    tell_both(b, out, at)
}
