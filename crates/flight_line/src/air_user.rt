// What the user of the aircraft does.
ghost use Rattle.text.specs.Page.{page};
ghost use Rattle.world.specs.World.{world_of};
ghost use Rattle.air_line.specs.Lines.{parsed_line};
ghost use Rattle.delivery.specs.Deliveries.{Flies};
ghost use Rattle.flight_line.specs.Users.{ANSWER-MOST};
ghost use Rattle.flight_line.specs.AirUsers.{air_asked, air_set, air_user};

use crate::user::{is_user, refuse};
use air_bench::reply::answer_line;
use air_line::answer::put_answer;
use air_line::line::{LineCall, parse_line};
use delivery::carry::Flown;
use refusals::SCRIPT_LINE;
use script::room::line_room;
use text::least;
use world::air_turn::turn_air;
use world::state::World;

// A line of an aircraft that has its setting.
fn ask_air(w: World, line: &[u8], out: &mut [u8], at: usize) -> Flown
    ensures { Flies ANSWER-MOST (air_asked (world_of w) (parsed_line line.now)) (page out.old at) (world_of result.world) (page out.new result.at) }
{
    let mut octets = line_room();
    let told = parse_line(line, &mut octets);
    let LineCall::Makes(call, n) = told.call else {
        return refuse(w, SCRIPT_LINE, out, at);
    };
    let came = &octets[..least(n, 2048)];
    let t = turn_air(w, w.taken, call, told.list, came);
    Flown {
        at: put_answer(out, at, t.said, came),
        world: t.world,
    }
}

// A line of an aircraft that has none.
fn set_air(w: World, line: &[u8], out: &mut [u8], at: usize) -> Flown
    ensures { Flies ANSWER-MOST (air_set (world_of w) line.now) (page out.old at) (world_of result.world) (page out.new result.at) }
{
    let r = answer_line(w.air, line, out, at);
    Flown {
        world: World { air: r.setup, ..w },
        at: r.at,
    }
}

pub fn use_air(w: World, line: &[u8], out: &mut [u8], at: usize) -> Flown
    ensures { Flies ANSWER-MOST (air_user (world_of w) line.now) (page out.old at) (world_of result.world) (page out.new result.at) }
{
    if !is_user(line) {
        return refuse(w, SCRIPT_LINE, out, at);
    }
    if w.air.ready {
        return ask_air(w, line, out, at);
    }
    set_air(w, line, out, at)
}
