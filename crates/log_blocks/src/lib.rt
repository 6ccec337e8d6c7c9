// The flight log's blocks of 512 octets, in octets that the caller lends: what is recorded, and what is read.
#![tactic(auto)]

ghost use Rattle.std.specs.Prelude.{◌≡◌, ◌+◌, ◌≤◌, length, take, drop};
ghost use Rattle.std.proofs.lemmas.List.Edits.{sets};
ghost use Rattle.log_blocks.specs.Block.{weighted, check_of, block_of, all_zero, length_judged, judged};
ghost use Rattle.log_blocks.specs.Record.{rec, noted, rec_octets};
ghost use Rattle.log_blocks.specs.Places.{found_at};
ghost use Rattle.log_blocks.specs.Tapes.{tape, fitting, Appends, Finishes};

use octets::{octet, put_octets, put_pair, put_word, put_zeros, read_pair, read_word};
use refusals::{CHECK_WRONG, NOT_READABLE, OUT_OF_TURN};
use text::least;

pub const BLOCK: usize = 512;

pub const ROOM: usize = 504;

// Of longer data so many octets are kept.
pub const KEPT: usize = 129;

// A log has at most so many blocks: the top octet of a number is left to the form (L11).
pub const BLOCKS: u32 = 16777216;

const MODULUS: u32 = 65521;

// The block that is being written: its number, and how many octets of payload it has.
#[derive(Clone, Copy, PartialEq, Eq, Debug)]
pub struct Tape {
    pub number: u32,
    pub used: usize,
}

// Why a record is not in a block.
#[derive(Clone, Copy, PartialEq, Eq, Debug)]
pub enum NotWritten {
    // the block is to be finished first
    Full,
    // no block may follow
    Ended,
    // not a block of this tape
    Refused,
}

// Not a block of this tape.
#[derive(Clone, Copy, PartialEq, Eq, Debug)]
pub struct Unfit;

// A record in a block: its data are the octets from start on, and the next place is behind them.
#[derive(Clone, Copy, PartialEq, Eq, Debug)]
pub struct Found {
    pub kind: u8,
    pub seconds: u32,
    pub start: usize,
    pub len: usize,
    pub next: usize,
}

// Neither a record nor the payload's end.
#[derive(Clone, Copy, PartialEq, Eq, Debug)]
pub struct Unreadable;

// ---- the check

fn weigh(s: &[u8]) -> u32
    requires { length s.now ≤ 510 }
    ensures { (result ≡ weighted 1 s.now) × (result ≤ 66325500) }
{
    let mut sum: u32 = 0;
    for (i, &o) in s.iter().enumerate() {
        let place = (i + 1) as u32;
        sum += u32::from(o) * place;
    }
    sum
}

fn check_of(s: &[u8]) -> u16
    requires { length s.now ≤ 510 }
    ensures { result ≡ check_of s.now }
{
    let w = weigh(s);
    ((1 + w) % MODULUS) as u16
}

// ---- reading

pub fn all_zero(s: &[u8]) -> bool
    ensures { result ≡ all_zero s.now }
{
    s.iter().all(|&o| o == 0)
}

fn judge_length(block: &[u8]) -> u8
    requires { length block.now ≡ 512 }
    ensures { result ≡ length_judged block.now }
{
    let size = read_pair(block, 4) as usize;
    if size > ROOM {
        return NOT_READABLE;
    }
    let a = 6 + size;
    if all_zero(&block[a..510]) {
        0
    } else {
        NOT_READABLE
    }
}

// 0, or the block's refusal: 18 check, 19 number, 20 length or zeros. Its records are judged by `record_at`.
pub fn check_block(block: &[u8], number: u32) -> u8
    ensures { result ≡ judged 0 number block.now }
{
    if block.len() != BLOCK {
        return NOT_READABLE;
    }
    let check = read_pair(block, 510);
    let sum = check_of(&block[..510]);
    if check != sum {
        return CHECK_WRONG;
    }
    if number >= BLOCKS {
        return OUT_OF_TURN;
    }
    let n = read_word(block, 0);
    if n != number {
        return OUT_OF_TURN;
    }
    judge_length(block)
}

// The record at a place of a block, none at the payload's end; the first place is 6.
pub fn record_at(block: &[u8], at: usize) -> Result<Option<Found>, Unreadable>
    ensures { result ≡ found_at block.now at }
{
    if block.len() != BLOCK {
        return Err(Unreadable);
    }
    let end = 6 + (read_pair(block, 4) as usize);
    if end > 510 {
        return Err(Unreadable);
    }
    if end <= at {
        return Ok(None);
    }
    let start = at + 6;
    if start > end {
        return Err(Unreadable);
    }
    let len = octet(block, at + 5) as usize;
    if len > KEPT {
        return Err(Unreadable);
    }
    let next = start + len;
    if next > end {
        return Err(Unreadable);
    }
    Ok(Some(Found {
        kind: octet(block, at),
        seconds: read_word(block, at + 1),
        start,
        len,
        next,
    }))
}

// ---- recording

// So many octets are a block of a tape with this number and so much payload.
pub fn fits(number: u32, used: usize, size: usize) -> bool
    ensures { result ≡ fitting (tape number used) size }
{
    size == BLOCK && used <= ROOM && number < BLOCKS
}

fn put_record(out: &mut [u8], at: usize, kind: u8, seconds: u32, octets: &[u8])
    requires { (at + 6 + length octets.now ≤ length out.old) × (length octets.now ≤ 129) }
    ensures { out.new ≡ sets out.old at (rec_octets (rec kind seconds octets.now)) }
{
    let n = octets.len() as u8;
    out[at] = kind;
    put_word(out, at + 1, seconds);
    out[at + 5] = n;
    put_octets(out, at + 6, octets);
}

// Of longer data the first 129 octets are kept. A record that is not written leaves the block as it was.
pub fn append(
    t: Tape,
    block: &mut [u8],
    kind: u8,
    seconds: u32,
    octets: &[u8],
) -> Result<Tape, NotWritten>
    ensures { Appends t block.old (noted (rec kind seconds octets.now)) result block.new }
{
    if !fits(t.number, t.used, block.len()) {
        return Err(NotWritten::Refused);
    }
    let n = least(KEPT, octets.len());
    let used = t.used + (6 + n);
    if used > ROOM {
        if t.number + 1 < BLOCKS {
            return Err(NotWritten::Full);
        }
        return Err(NotWritten::Ended);
    }
    put_record(block, 6 + t.used, kind, seconds, &octets[..n]);
    Ok(Tape { used, ..t })
}

fn seal(block: &mut [u8], number: u32, used: usize)
    requires { (length block.old ≡ 512) × (used ≤ 504) }
    ensures { block.new ≡ block_of number (take used (drop 6 block.old)) }
{
    put_zeros(block, 6 + used, 510);
    put_word(block, 0, number);
    put_pair(block, 4, used as u16);
    let check = check_of(&block[..510]);
    put_pair(block, 510, check);
}

// Writes zeros, length, number and check: the block is then one of the log. Its answer is the tape of the next block, none where no block may follow.
pub fn finish(t: Tape, block: &mut [u8]) -> Result<Option<Tape>, Unfit>
    ensures { Finishes t block.old result block.new }
{
    if !fits(t.number, t.used, block.len()) {
        return Err(Unfit);
    }
    seal(block, t.number, t.used);
    let number = t.number + 1;
    Ok((number < BLOCKS).then_some(Tape { number, used: 0 }))
}
