// The calls themselves, by the number of their word.
ghost use Rattle.std.specs.Prelude.{◌≡◌, []};
ghost use Rattle.host_record.specs.Hosting.{hosted, Hosts};
ghost use Rattle.host_log.specs.Recording.{Keeps};
ghost use Rattle.per.specs.Writing.{write_pdu};
ghost use Rattle.pdu.specs.UplinkTable.{ground_c};
ghost use Rattle.pdu.specs.DownlinkTable.{air_c};
ghost use Rattle.host_numbers.specs.UplinkNumbers.{ground_at};
ghost use Rattle.host_numbers.specs.DownlinkNumbers.{air_at};
ghost use Rattle.adschost.specs.Flatness.{WritesFlat};
ghost use Rattle.host_lines.specs.Calls.{word_of, plain_call, octets_call, other_done, link_done, block_done, called, Does};

use adschost::blocks::*;
use adschost::calls::*;
use adschost::messages::{adsc_write_air, adsc_write_ground};
use host_numbers::numbers::number;
use text::words::find;

const WRITE_GROUND: usize = 1;

const WRITE_AIR: usize = 2;

const OPEN: usize = 3;

const REQUEST: usize = 4;

const ELAPSE: usize = 5;

const START_CONFIRM: usize = 6;

const DATA: usize = 7;

const USER_ABORT: usize = 9;

const START_REJECTED: usize = 10;

const END_CONFIRM: usize = 11;

const PEER_ABORT: usize = 12;

const DOWN: usize = 13;

const BLOCK_OPEN: usize = 14;

const BLOCK_APPEND: usize = 15;

const BLOCK_FINISH: usize = 16;

// What stands in the place of the length before a call: more than any PDU has.
const BEFORE: usize = 999;

// The number that a call gives, and the length after it.
#[derive(Drop)]
pub(crate) struct Called {
    pub number: u8,
    pub length: usize,
}

// The number of a word, 0 for any other text.
pub(crate) fn word_of(w: &[u8]) -> usize
    ensures { result ≡ word_of w.now }
{
    find(
        w,
        b"write_groundwrite_airopenrequestelapsestart_confirmdataair_abortuser_abortstart_rejectedend_confirmpeer_abortdownblock_openblock_appendblock_finishblock_play",
        &[
            0, 0, 12, 21, 25, 32, 38, 51, 55, 64, 74, 88, 99, 109, 113, 123, 135, 147, 157,
        ],
    )
}

fn write_ground(numbers: &[u32], out: &mut [u8]) -> Called
    ensures { WritesFlat (write_pdu ground_c (ground_at numbers.now) out.old) 999 result.number out.new result.length }
{
    let mut length = BEFORE;
    let number = adsc_write_ground(numbers, out, &mut length);
    Called { number, length }
}

fn write_air(octets: &[u8], numbers: &[u32], out: &mut [u8]) -> Called
    ensures { WritesFlat (write_pdu air_c (air_at numbers.now octets.now) out.old) 999 result.number out.new result.length }
{
    let mut length = BEFORE;
    let number = adsc_write_air(numbers, octets, out, &mut length);
    Called { number, length }
}

// The calls that take nothing; the last word is `down`.
fn plain_call(w: usize, link: &mut [u8], out: &mut [u8]) -> u8
    ensures { Hosts (hosted (plain_call w) [] link.old out.old) result link.new out.new }
{
    match w {
        USER_ABORT => adsc_user_abort(link, out),
        START_REJECTED => adsc_start_rejected(link, out),
        END_CONFIRM => adsc_end_confirm(link, out),
        PEER_ABORT => adsc_peer_abort(link, out),
        _ => adsc_down(link, out),
    }
}

// The calls that take octets; the last word of them is `air_abort`.
fn octets_call(w: usize, link: &mut [u8], octets: &[u8], out: &mut [u8]) -> u8
    ensures { Hosts (hosted (octets_call w) octets.now link.old out.old) result link.new out.new }
{
    match w {
        START_CONFIRM => adsc_start_confirm(link, octets, out),
        DATA => adsc_data(link, octets, out),
        _ => adsc_air_abort(link, octets, out),
    }
}

fn other_call(w: usize, link: &mut [u8], octets: &[u8], out: &mut [u8]) -> u8
    ensures { Hosts (other_done w link.old octets.now out.old) result link.new out.new }
{
    if w < USER_ABORT {
        return octets_call(w, link, octets, out);
    }
    plain_call(w, link, out)
}

// The calls on a record.
fn link_call(w: usize, link: &mut [u8], octets: &[u8], numbers: &[u32], out: &mut [u8]) -> u8
    ensures { Hosts (link_done w link.old octets.now numbers.now out.old) result link.new out.new }
{
    match w {
        OPEN => adsc_open(numbers, link),
        REQUEST => adsc_request(link, numbers, out),
        ELAPSE => adsc_elapse(link, number(numbers, 0), out),
        _ => other_call(w, link, octets, out),
    }
}

// The calls of the flight log, on a block or a record in the place of the link; the last word is `block_play`. A kind is an octet: of a larger number the
// lowest.
fn block_call(w: usize, link: &mut [u8], octets: &[u8], numbers: &[u32]) -> u8
    ensures { Keeps (block_done w link.old octets.now numbers.now) result link.new }
{
    let first = number(numbers, 0);
    match w {
        BLOCK_OPEN => adsc_block_open(link, first),
        BLOCK_APPEND => adsc_block_append(link, (first % 256) as u8, number(numbers, 1), octets),
        BLOCK_FINISH => adsc_block_finish(link),
        _ => adsc_block_play(link, octets, first),
    }
}

// One call on buffers, whatever they hold.
pub(crate) fn call(
    w: usize,
    link: &mut [u8],
    octets: &[u8],
    numbers: &[u32],
    out: &mut [u8],
) -> Called
    ensures { Does (called w link.old octets.now numbers.now out.old) result link.new out.new }
{
    if w == WRITE_GROUND {
        return write_ground(numbers, out);
    }
    if w == WRITE_AIR {
        return write_air(octets, numbers, out);
    }
    if w > DOWN {
        let number = block_call(w, link, octets, numbers);
        return Called {
            number,
            length: BEFORE,
        };
    }
    let number = link_call(w, link, octets, numbers, out);
    Called {
        number,
        length: BEFORE,
    }
}
