// A block of the log played on a record of 93 octets.
ghost use Rattle.std.specs.Prelude.{◌≡◌};
ghost use Rattle.host_log.specs.Recording.{Keeps};
ghost use Rattle.host_log.specs.Playing.{box_in, box_good, block_played};

use bench::reply::Setup;
use ground_answer::record::is_good;
use host_record::record::{RECORD, load, save};
use log_blocks::all_zero;
use log_play::block::play_block;
use refusals::BAD_RECORD;

fn box_in(link: &[u8]) -> Setup
    ensures { result ≡ box_in link.now }
{
    Setup {
        ready: !all_zero(link),
        link: load(link),
    }
}

fn box_good(link: &[u8]) -> bool
    ensures { result ≡ box_good link.now }
{
    link.len() == RECORD && (all_zero(link) || is_good(load(link)))
}

// The record is written back only where the whole block was played; one without records leaves a record of zeros.
pub fn play_on(link: &mut [u8], block: &[u8], number: u32) -> u8
    ensures { Keeps (block_played link.old number block.now) result link.new }
{
    if !box_good(link) {
        return BAD_RECORD;
    }
    let p = play_block(box_in(link), block, number);
    if p.refusal != 0 {
        return p.refusal;
    }
    if p.setup.ready {
        save(p.setup.link, link);
    }
    0
}
