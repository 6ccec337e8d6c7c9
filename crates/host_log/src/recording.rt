// A block that is open says by itself how far it is written: its number and its payload's length stand in it.
ghost use Rattle.std.specs.Prelude.{◌≡◌};
ghost use Rattle.log_blocks.specs.Record.{rec};
ghost use Rattle.host_log.specs.Recording.{tape_in, is_open, fields_good, block_opened, block_appended, block_finished, Keeps};

use bench_line::line::shape_of;
use log_blocks::{BLOCK, BLOCKS, Tape, Unfit, append, finish, fits};
use log_play::record::{SETTINGS, hold_record};
use octets::{put_pair, put_word, put_zeros, read_pair, read_word};
use refusals::{NO_ROOM, NOT_READABLE, OUT_OF_RANGE};
use script::line::Held;

pub fn open_block(block: &mut [u8], number: u32) -> u8
    ensures { Keeps (block_opened number block.old) result block.new }
{
    if number >= BLOCKS {
        return OUT_OF_RANGE;
    }
    if block.len() != BLOCK {
        return NO_ROOM;
    }
    put_word(block, 0, number);
    put_zeros(block, 4, BLOCK);
    0
}

fn tape_in(block: &[u8]) -> Tape
    ensures { result ≡ tape_in block.now }
{
    let number = read_word(block, 0);
    let used = read_pair(block, 4) as usize;
    Tape { number, used }
}

fn is_open(block: &[u8]) -> bool
    ensures { result ≡ is_open block.now }
{
    let t = tape_in(block);
    fits(t.number, t.used, block.len())
}

// Whether a record has what its call uses, and no more.
fn fields_good(kind: u8, seconds: u32, octets: &[u8]) -> bool
    ensures { result ≡ fields_good (rec kind seconds octets.now) }
{
    if kind == 0 {
        return seconds == 0 && octets.len() == SETTINGS;
    }
    let shape = shape_of(kind as usize + 1);
    !matches!(hold_record(shape, seconds, octets), Held::Unread)
}

// A record that is not written leaves the block as it was.
pub fn append_record(block: &mut [u8], kind: u8, seconds: u32, octets: &[u8]) -> u8
    ensures { Keeps (block_appended block.old (rec kind seconds octets.now)) result block.new }
{
    if !is_open(block) {
        return NOT_READABLE;
    }
    if !fields_good(kind, seconds, octets) {
        return OUT_OF_RANGE;
    }
    let Ok(next) = append(tape_in(block), block, kind, seconds, octets) else {
        return NO_ROOM;
    };
    put_pair(block, 4, next.used as u16);
    0
}

// The block may take more records afterwards, and be finished again.
pub fn finish_block(block: &mut [u8]) -> u8
    ensures { Keeps (block_finished block.old) result block.new }
{
    match finish(tape_in(block), block) {
        Ok(_) => 0,
        Err(Unfit) => NOT_READABLE,
    }
}
