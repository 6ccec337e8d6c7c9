// What the user of the ground does.
ghost use Rattle.text.specs.Page.{page};
ghost use Rattle.world.specs.World.{world_of};
ghost use Rattle.bench_line.specs.Lines.{parsed_line};
ghost use Rattle.delivery.specs.Deliveries.{Flies};
ghost use Rattle.flight_line.specs.Users.{ANSWER-MOST};
ghost use Rattle.flight_line.specs.GroundUsers.{ground_asked, ground_set, ground_user};

use crate::user::{is_user, refuse};
use bench::reply::answer_line;
use bench_line::answer::put_answer;
use bench_line::line::{LineCall, parse_line};
use delivery::carry::Flown;
use refusals::SCRIPT_LINE;
use script::room::line_room;
use text::least;
use world::ground_turn::turn_ground;
use world::state::World;

// A line of a ground that has its settings.
fn ask_ground(w: World, line: &[u8], out: &mut [u8], at: usize) -> Flown
    ensures { Flies ANSWER-MOST (ground_asked (world_of w) (parsed_line line.now)) (page out.old at) (world_of result.world) (page out.new result.at) }
{
    let mut octets = line_room();
    let told = parse_line(line, &mut octets);
    let LineCall::Makes(call, n) = told else {
        return refuse(w, SCRIPT_LINE, out, at);
    };
    let came = &octets[..least(n, 2048)];
    let t = turn_ground(w, call, came);
    Flown {
        at: put_answer(out, at, t.said, came),
        world: t.world,
    }
}

// A line of a ground that has none.
fn set_ground(w: World, line: &[u8], out: &mut [u8], at: usize) -> Flown
    ensures { Flies ANSWER-MOST (ground_set (world_of w) line.now) (page out.old at) (world_of result.world) (page out.new result.at) }
{
    let r = answer_line(w.ground_end, line, out, at);
    Flown {
        world: World {
            ground_end: r.setup,
            ..w
        },
        at: r.at,
    }
}

pub fn use_ground(w: World, line: &[u8], out: &mut [u8], at: usize) -> Flown
    ensures { Flies ANSWER-MOST (ground_user (world_of w) line.now) (page out.old at) (world_of result.world) (page out.new result.at) }
{
    if !is_user(line) {
        return refuse(w, SCRIPT_LINE, out, at);
    }
    if w.ground_end.ready {
        return ask_ground(w, line, out, at);
    }
    set_ground(w, line, out, at)
}
