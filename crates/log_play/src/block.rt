// A block of the flight log, played as a whole: it is judged before anything of it counts.
ghost use Rattle.std.specs.Prelude.{◌≡◌, ◌≤◌, length};
ghost use Rattle.log_blocks.specs.Places.{end_of, from};
ghost use Rattle.log_blocks.specs.Log.{bad, records_of};
ghost use Rattle.log_blocks.specs.Record.{form_one};
ghost use Rattle.log_blocks.specs.Play.{with_records, play};
ghost use Rattle.log_play.specs.Steps.{step_of};
ghost use Rattle.log_play.specs.Plays.{played_in, play_block};

use crate::record::play_record;
use bench::reply::Setup;
use log_blocks::{Unreadable, check_block, record_at};
use refusals::NOT_READABLE;

// `refusal` is 0, or 18, 19 or 20 beside the box as it was.
#[derive(Drop)]
pub struct Played {
    pub refusal: u8,
    pub setup: Setup,
}

// A block that is refused: the box stays.
fn unplayed(b: Setup, refusal: u8) -> Played
    ensures { result ≡ played_in b (bad refusal) }
{
    Played { refusal, setup: b }
}

// Every record in turn of a block whose check, number and length are right.
fn walk(b: Setup, block: &[u8]) -> Played
    requires { (length block.now ≡ 512) × (end_of block.now ≤ 510) }
    ensures { result ≡ played_in b (with_records (records_of form_one (from block.now 6)) (play step_of b)) }
{
    let mut setup = b;
    let mut at: usize = 6;
    loop {
        match record_at(block, at) {
            Ok(Some(r)) => {
                let s = play_record(setup, r.kind, r.seconds, &block[r.start..r.next]);
                if !s.went {
                    return unplayed(b, NOT_READABLE);
                }
                setup = s.setup;
                at = r.next;
            }
            Ok(None) => return Played { refusal: 0, setup },
            Err(Unreadable) => return unplayed(b, NOT_READABLE),
        }
    }
}

// Block `number` of a log: the box after its records, or its refusal.
pub fn play_block(b: Setup, block: &[u8], number: u32) -> Played
    ensures { result ≡ played_in b (play_block b number block.now) }
{
    let bad = check_block(block, number);
    if bad != 0 {
        return unplayed(b, bad);
    }
    walk(b, block)
}
