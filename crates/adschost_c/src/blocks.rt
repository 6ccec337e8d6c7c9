// The flight log, in a block that the host keeps.
ghost use Rattle.log_blocks.specs.Record.{rec};
ghost use Rattle.host_log.specs.Recording.{block_opened, block_appended, block_finished, Keeps};
ghost use Rattle.host_log.specs.Playing.{block_played};

// An empty block of this number.
#[unsafe(no_mangle)]
pub extern "C" fn adsc_block_open(block: &mut [u8], number: u32) -> u8
    ensures { Keeps (block_opened number block.old) result block.new }
{
    adschost::blocks::adsc_block_open(block, number)
}

// A record behind those that the block has.
#[unsafe(no_mangle)]
pub extern "C" fn adsc_block_append(block: &mut [u8], kind: u8, seconds: u32, data: &[u8]) -> u8
    ensures { Keeps (block_appended block.old (rec kind seconds «data».now)) result block.new }
{
    adschost::blocks::adsc_block_append(block, kind, seconds, data)
}

// Zeros and the check: the block may be kept.
#[unsafe(no_mangle)]
pub extern "C" fn adsc_block_finish(block: &mut [u8]) -> u8
    ensures { Keeps (block_finished block.old) result block.new }
{
    adschost::blocks::adsc_block_finish(block)
}

// A block of a log, played on the link wholly or not at all.
#[unsafe(no_mangle)]
pub extern "C" fn adsc_block_play(link: &mut [u8], block: &[u8], number: u32) -> u8
    ensures { Keeps (block_played link.old number block.now) result link.new }
{
    adschost::blocks::adsc_block_play(link, block, number)
}
