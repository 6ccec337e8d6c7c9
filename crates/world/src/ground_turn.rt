// A call of the ground.
ghost use Rattle.std.specs.Prelude.{◌≡◌};
ghost use Rattle.world.specs.World.{world_of};
ghost use Rattle.world.specs.GroundTurns.{turned, turn_of, hears, call_for};

use crate::state::{MOST, World};
use bench::reply::Setup;
use channel::{Letter, count};
use ground::call::{Call, answer};
use ground_answer::answer::{Said, refuse};
use link::actions::ABORT_REQUEST;
use link::moves::IDLE;
use refusals::SCRIPT_LINE;
use sending::{END, START, USER_ABORT, Way, send_said};

// The world after the call, and what the ground said.
#[derive(Drop)]
pub struct GroundTurn {
    pub world: World,
    pub said: Said,
}

// A call, unless too many letters would be under way after it.
pub fn turn_ground(w: World, call: Call, octets: &[u8]) -> GroundTurn
    ensures { turn_of result ≡ turned (world_of w) call octets.now }
{
    let a = answer(w.ground_end.link, call, octets);
    let said = a.said;
    let way = send_said(
        Way {
            held: w.held,
            number: w.last,
        },
        true,
        said.acts,
        said.sent.n,
        &said.sent.octets,
    );
    if MOST < count(way.held) {
        return GroundTurn {
            world: w,
            said: refuse(w.ground_end.link, SCRIPT_LINE).said,
        };
    }
    GroundTurn {
        world: World {
            ground_end: Setup {
                ready: true,
                link: a.link,
            },
            held: way.held,
            last: way.number,
            ..w
        },
        said,
    }
}

// Whether the ground is told of a letter: one of its present dialogue.
#[tactic(auto, unfolding(crate::specs::GroundTurns::hears))]
pub fn is_heard(w: World, l: Letter) -> bool
    ensures { result ≡ hears (world_of w) l }
{
    w.ground_end.link.at[4] != IDLE && l.number == w.last
}

// What the ground hears of a kind of letter.
#[tactic(auto, unfolding(crate::specs::GroundTurns::call_for))]
pub fn call_for(kind: u8) -> Call
    ensures { result ≡ call_for kind }
{
    match kind {
        START => Call::StartConfirm,
        END => Call::EndConfirm,
        ABORT_REQUEST => Call::AirAbort,
        USER_ABORT => Call::PeerAbort,
        _ => Call::Data,
    }
}
