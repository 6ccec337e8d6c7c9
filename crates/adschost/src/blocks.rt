// The flight log, in a block that the host keeps.
ghost use Rattle.log_blocks.specs.Record.{rec};
ghost use Rattle.host_log.specs.Recording.{block_opened, block_appended, block_finished, Keeps};
ghost use Rattle.host_log.specs.Playing.{block_played};

use host_log::playing::play_on;
use host_log::recording::{append_record, finish_block, open_block};

// An empty block of this number.
pub fn adsc_block_open(block: &mut [u8], number: u32) -> u8
    ensures { Keeps (block_opened number block.old) result block.new }
{
    open_block(block, number)
}

// A record behind those that the block has.
pub fn adsc_block_append(block: &mut [u8], kind: u8, seconds: u32, data: &[u8]) -> u8
    ensures { Keeps (block_appended block.old (rec kind seconds «data».now)) result block.new }
{
    append_record(block, kind, seconds, data)
}

// Zeros and the check: the block may be kept.
pub fn adsc_block_finish(block: &mut [u8]) -> u8
    ensures { Keeps (block_finished block.old) result block.new }
{
    finish_block(block)
}

// A block of a log, played on the link wholly or not at all.
pub fn adsc_block_play(link: &mut [u8], block: &[u8], number: u32) -> u8
    ensures { Keeps (block_played link.old number block.now) result link.new }
{
    play_on(link, block, number)
}
