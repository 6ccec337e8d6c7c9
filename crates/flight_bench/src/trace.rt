// The output of a flight: its first line, and the answer to each line with its number.
ghost use Rattle.text.specs.Page.{page};
ghost use Rattle.script.specs.Trace.{bumped};
ghost use Rattle.world.specs.World.{world_of};
ghost use Rattle.flight_bench.specs.Trace.{begun, numbered, Adds};

use channel::empty;
use flight_line::line::fly_line;
use ground_answer::fresh::idle_link;
use link::moves::TIMERS;
use script::trace::bump;
use text::{put_byte, put_decimal, put_text};
use world::state::World;

// `number` lines are answered, and the pen is at `at` on the page.
#[derive(Drop)]
pub struct Trace {
    pub number: u64,
    pub at: usize,
    pub world: World,
}

// The start of a flight, on an empty page.
pub fn begin(out: &mut [u8]) -> Trace
    ensures { Adds (page out.old 0) 0 begun result.number (world_of result.world) (page out.new result.at) }
{
    let at = put_text(out, 0, b"adsc flight 1\n");
    Trace {
        number: 0,
        at,
        world: World {
            ground_end: bench::reply::Setup {
                ready: false,
                link: idle_link([0; TIMERS]),
            },
            air: air_bench::reply::Setup {
                ready: false,
                link: air_answer::fresh::idle_link(0),
            },
            held: empty(),
            last: 0,
            taken: 0,
        },
    }
}

// The answer to the next line, with its number.
pub fn number_line(t: Trace, line: &[u8], out: &mut [u8]) -> Trace
    ensures { Adds (page out.old t.at) (bumped t.number) (numbered (bumped t.number) (world_of t.world) line.now) result.number (world_of result.world) (page out.new result.at) }
{
    let number = bump(t.number);
    let a = put_decimal(out, t.at, number);
    let b = put_byte(out, a, 32);
    let f = fly_line(t.world, number, line, out, b);
    Trace {
        number,
        at: f.at,
        world: f.world,
    }
}
