// A call of the aircraft.
ghost use Rattle.std.specs.Prelude.{◌≡◌};
ghost use Rattle.world.specs.World.{world_of};
ghost use Rattle.world.specs.AirTurns.{turned, turn_of, hears, call_for, taken_after};

use crate::state::{MOST, World};
use air::call::{Call, answer};
use air_answer::answer::{Said, refuse};
use air_bench::reply::Setup;
use channel::{Letter, count};
use link::actions::ABORT_REQUEST;
use link::moves::IDLE;
use pdu_parts::lists::Listed;
use refusals::SCRIPT_LINE;
use sending::{END, START, USER_ABORT, Way, send_said};

// The world after the call, and what the aircraft said.
#[derive(Drop)]
pub struct AirTurn {
    pub world: World,
    pub said: Said,
}

// The dialogue of which the aircraft sends from a call on.
#[tactic(auto, unfolding(crate::specs::AirTurns::taken_after))]
fn taken_after(refusal: u8, number: u64, before: u64) -> u64
    ensures { result ≡ taken_after refusal number before }
{
    if refusal == 0 { number } else { before }
}

// A call in the dialogue with a number, unless too many letters would be under way after it.
pub fn turn_air(w: World, number: u64, call: Call, list: Listed, octets: &[u8]) -> AirTurn
    ensures { turn_of result ≡ turned (world_of w) number call list octets.now }
{
    let a = answer(w.air.link, call, list, octets);
    let said = a.said;
    let way = send_said(
        Way {
            held: w.held,
            number,
        },
        false,
        said.acts,
        said.sent.n,
        &said.sent.octets,
    );
    if MOST < count(way.held) {
        return AirTurn {
            world: w,
            said: refuse(w.air.link, SCRIPT_LINE).said,
        };
    }
    AirTurn {
        world: World {
            air: Setup {
                ready: true,
                link: a.link,
            },
            held: way.held,
            taken: taken_after(said.refusal, number, w.taken),
            ..w
        },
        said,
    }
}

// Whether the aircraft is told of a letter: a start request, or one of its present dialogue.
#[tactic(auto, unfolding(crate::specs::AirTurns::hears))]
pub fn is_heard(w: World, l: Letter) -> bool
    ensures { result ≡ hears (world_of w) l }
{
    l.kind == START || (w.air.link.at[4] != IDLE && l.number == w.taken)
}

// What the aircraft hears of a kind of letter.
#[tactic(auto, unfolding(crate::specs::AirTurns::call_for))]
pub fn call_for(kind: u8) -> Call
    ensures { result ≡ call_for kind }
{
    match kind {
        START => Call::StartInd,
        END => Call::EndInd,
        ABORT_REQUEST => Call::GroundAbort,
        USER_ABORT => Call::PeerAbort,
        _ => Call::Data,
    }
}
