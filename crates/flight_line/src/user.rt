// What the users of both ends share.
ghost use Rattle.std.specs.Prelude.{◌≡◌};
ghost use Rattle.text.specs.Page.{page};
ghost use Rattle.world.specs.World.{world_of};
ghost use Rattle.delivery.specs.Deliveries.{Flies};
ghost use Rattle.flight_line.specs.Users.{is_user, ANSWER-MOST, refused};

use delivery::carry::Flown;
use text::word_end;
use text::words::{find, put_refused};
use world::state::World;

// A refusal, which changes nothing.
pub fn refuse(w: World, n: u8, out: &mut [u8], at: usize) -> Flown
    ensures { Flies ANSWER-MOST (refused (world_of w) n) (page out.old at) (world_of result.world) (page out.new result.at) }
{
    let a = put_refused(out, at, n);
    Flown { world: w, at: a }
}

// Whether the line is one of a user: settings, a request, an abort.
pub fn is_user(line: &[u8]) -> bool
    ensures { result ≡ is_user line.now }
{
    let e = word_end(line);
    let k = find(&line[..e], b"setrequser-abort", &[0, 0, 3, 6, 16]);
    0 < k
}
