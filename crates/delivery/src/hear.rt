// What comes of a letter at the end that it is for.
ghost use Rattle.std.specs.Prelude.{◌≡◌, ◌≤◌, length};
ghost use Rattle.text.specs.Page.{page};
ghost use Rattle.world.specs.World.{world_of};
ghost use Rattle.delivery.specs.Hearing.{HEARD-MOST, Carries, came, ground_carried, air_carried, came_to, comes};

use crate::answers::{put_air, put_ground};
use channel::{Letter, ROOM};
use pdu_parts::lists::no_list;
use refusals::SCRIPT_LINE;
use sending::END;
use text::{least, put_text};
use world::air_turn::turn_air;
use world::ground_turn::turn_ground;
use world::state::World;

// The world after it, the place of the pen, and whether the letter stays under way, since too many would be after it.
#[derive(Drop)]
pub struct Carried {
    pub world: World,
    pub at: usize,
    pub stays: bool,
}

// The octets that the end hears: an end confirm has none.
#[tactic(auto, unfolding(crate::specs::Hearing::came))]
pub fn came(l: &Letter) -> &[u8]
    ensures { result.now ≡ came l.now }
{
    if !l.up && l.kind == END {
        return &l.octets[..0];
    }
    let n = least(l.n, ROOM);
    &l.octets[..n]
}

// A letter that no end is told of.
fn say(w: World, word: &[u8], out: &mut [u8], at: usize) -> Carried
    requires { length word.now ≤ HEARD-MOST }
    ensures { Carries HEARD-MOST (came_to (world_of w) word.now) (page out.old at) result (page out.new result.at) }
{
    let a = put_text(out, at, word);
    Carried {
        world: w,
        at: a,
        stays: false,
    }
}

fn hear_ground(w: World, l: Letter, out: &mut [u8], at: usize) -> Carried
    ensures { Carries HEARD-MOST (ground_carried (world_of w) l) (page out.old at) result (page out.new result.at) }
{
    if !world::ground_turn::is_heard(w, l) {
        return say(w, b"over", out, at);
    }
    let octets = came(&l);
    let t = turn_ground(w, world::ground_turn::call_for(l.kind), octets);
    let said = t.said;
    let a = put_ground(out, at, said, octets);
    Carried {
        world: t.world,
        at: a,
        stays: said.refusal == SCRIPT_LINE,
    }
}

fn hear_air(w: World, l: Letter, out: &mut [u8], at: usize) -> Carried
    ensures { Carries HEARD-MOST (air_carried (world_of w) l) (page out.old at) result (page out.new result.at) }
{
    if !world::air_turn::is_heard(w, l) {
        return say(w, b"over", out, at);
    }
    let octets = came(&l);
    let t = turn_air(
        w,
        l.number,
        world::air_turn::call_for(l.kind),
        no_list(),
        octets,
    );
    let said = t.said;
    let a = put_air(out, at, said, octets);
    Carried {
        world: t.world,
        at: a,
        stays: said.refusal == SCRIPT_LINE,
    }
}

// Heard by the end that it is for, or lost.
pub fn come(w: World, l: Letter, hear: bool, out: &mut [u8], at: usize) -> Carried
    ensures { Carries HEARD-MOST (comes hear (world_of w) l) (page out.old at) result (page out.new result.at) }
{
    if !hear {
        return say(w, b"lost", out, at);
    }
    if l.up {
        return hear_air(w, l, out, at);
    }
    hear_ground(w, l, out, at)
}
