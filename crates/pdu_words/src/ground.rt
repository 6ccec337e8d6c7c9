// Ground PDUs in words: the rows `ground_rows`. They have no list.
ghost use Rattle.text.specs.Page.{page, Writes};
ghost use Rattle.pdu_words.specs.GroundRows.{ground_words};

use crate::page::Page;
use crate::rows::Guard::*;
use crate::rows::{Row, put_rows};
use crate::ways::Way::*;
use host_numbers::places::*;

const GROUND: [Row; 46] = [
    Row(0xfff, Always, 59, Nothing, 0, 0),
    Row(0x001, Always, 7, Nothing, 0, 0),
    Row(0x002, Same(G_WHAT, 0), 4, Nothing, 0, 0),
    Row(0x002, Same(G_WHAT, 1), 5, Nothing, 0, 0),
    Row(0x004, Always, 9, Nothing, 0, 0),
    Row(0x008, Always, 3, Nothing, 0, 0),
    Row(0x010, Always, 1, Nothing, 0, 0),
    Row(0x020, Always, 6, Nothing, 0, 0),
    Row(0x040, Always, 2, Nothing, 0, 0),
    Row(0x080, Always, 79, Number, G_WHAT, 63),
    Row(0x080, Always, 0, Word(6), G_WHAT, 64),
    Row(0x060, Always, 68, Number, G_INTERVAL, 61),
    Row(0x060, Always, 0, Word(10), G_SCALE, 0),
    Row(0x060, Other(G_INTERVAL, 1), 67, Nothing, 0, 0),
    Row(0x010, Bit(G_WHAT, 10), 60, Nothing, 0, 14),
    Row(0x010, Bit(G_WHAT, 10), 61, Tenths, G_LATERAL, 101),
    Row(0x010, Bit(G_WHAT, 9), 60, Nothing, 0, 15),
    Row(0x010, Bit(G_WHAT, 9), 61, Tens, G_RATE, 91),
    Row(0x010, Bit(G_WHAT, 8), 102, Tens, G_CEILING, 82),
    Row(0x010, Bit(G_WHAT, 8), 103, Tens, G_FLOOR, 82),
    Row(0x010, Bit(G_WHAT, 7), 60, Nothing, 0, 17),
    Row(0x010, Bit(G_WHAT, 6), 60, Nothing, 0, 18),
    Row(
        0x010,
        Same(G_AIR_SPEED, 0),
        0,
        MachSteps,
        G_AIR_SPEED_CHANGE,
        0,
    ),
    Row(
        0x010,
        Same(G_AIR_SPEED, 1),
        94,
        Number,
        G_AIR_SPEED_CHANGE,
        89,
    ),
    Row(0x010, Bit(G_WHAT, 5), 60, Nothing, 0, 19),
    Row(0x010, Bit(G_WHAT, 5), 61, Number, G_GROUND_SPEED, 89),
    Row(0x010, Bit(G_WHAT, 4), 60, Nothing, 0, 20),
    Row(0x010, Bit(G_WHAT, 4), 61, Tenths, G_HEADING, 104),
    Row(0x010, Bit(G_WHAT, 3), 60, Nothing, 0, 21),
    Row(
        0x010,
        Same(G_EXTENDED_PROFILE, 0),
        0,
        TimeSteps,
        G_EXTENDED_PROFILE_COUNT,
        0,
    ),
    Row(
        0x010,
        Same(G_EXTENDED_PROFILE, 1),
        105,
        Number,
        G_EXTENDED_PROFILE_COUNT,
        0,
    ),
    Row(0x010, Bit(G_WHAT, 2), 60, Nothing, 0, 22),
    Row(0x010, Bit(G_WHAT, 1), 60, Nothing, 0, 23),
    Row(0x010, Bit(G_WHAT, 1), 61, Tenths, G_TRACK, 104),
    Row(0x010, Bit(G_WHAT, 0), 60, Nothing, 0, 24),
    Row(0x010, Bit(G_WHAT, 0), 61, Tens, G_LEVEL, 82),
    Row(0x048, Bit(G_WHAT, 6), 60, Nothing, 0, 26),
    Row(0x040, Bit(G_WHAT, 6), 0, Nth, G_ADDRESS, 0),
    Row(0x048, Bit(G_WHAT, 5), 60, Nothing, 0, 27),
    Row(0x040, Bit(G_WHAT, 5), 0, Nth, G_PROFILE, 0),
    Row(0x048, Bit(G_WHAT, 4), 60, Nothing, 0, 28),
    Row(0x040, Bit(G_WHAT, 4), 0, Nth, G_GROUND_VECTOR, 0),
    Row(0x048, Bit(G_WHAT, 3), 60, Nothing, 0, 29),
    Row(0x040, Bit(G_WHAT, 3), 0, Nth, G_AIR_VECTOR, 0),
    Row(0x048, Bit(G_WHAT, 2), 60, Nothing, 0, 30),
    Row(0x040, Bit(G_WHAT, 2), 0, Nth, G_WEATHER, 0),
];

pub(crate) fn put_ground(out: &mut Page, at: usize, f: &[u32]) -> usize
    ensures { Writes (page out.old at) (ground_words f.now) (page out.new result) }
{
    put_rows(out, at, &GROUND, f, b"")
}
