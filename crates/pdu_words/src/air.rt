// Aircraft PDUs in words: the rows `air_rows`.
ghost use Rattle.text.specs.Page.{page, Writes};
ghost use Rattle.pdu_words.specs.AirRows.{air_words};

use crate::page::Page;
use crate::rows::Guard::*;
use crate::rows::{Row, put_rows};
use crate::ways::Way::*;
use host_numbers::places::*;

const AIR: [Row; 57] = [
    Row(0xfff, Always, 58, Nothing, 0, 0),
    Row(0x001, Always, 69, Nothing, 0, 0),
    Row(0x002, Always, 70, Nothing, 0, 0),
    Row(0x004, Always, 71, Nothing, 0, 0),
    Row(0x008, Always, 72, Word(3), A_DETAIL, 0),
    Row(0x010, Always, 73, Word(1), A_WHAT, 62),
    Row(0x010, Always, 0, Word(2), A_DETAIL, 0),
    Row(0x010, Same(A_DETAIL, 2), 74, Number, A_COUNT, 0),
    Row(0x010, Same(A_DETAIL, 2), 0, List(0), A_COUNT, 0),
    Row(0x020, Same(A_WHAT, 0), 75, Nothing, 0, 3),
    Row(0x020, Same(A_WHAT, 1), 75, Nothing, 0, 1),
    Row(0x020, Same(A_WHAT, 2), 75, Nothing, 0, 2),
    Row(0x020, Always, 60, Number, A_COUNT, 76),
    Row(0x020, Same(A_WHAT, 1), 0, List(3), A_COUNT, 0),
    Row(0x020, Other(A_WHAT, 1), 0, List(4), A_COUNT, 0),
    Row(0x040, Always, 77, Nothing, 0, 0),
    Row(0x080, Always, 78, Word(1), A_WHAT, 0),
    Row(0x100, Always, 79, Number, A_WHAT, 63),
    Row(0x100, Always, 0, Word(6), A_WHAT, 64),
    Row(0x04e, Same(A_WHAT, 1), 80, Nothing, 0, 0),
    Row(0x04e, Always, 60, Two, A_LATITUDE, 61),
    Row(0x04e, Always, 0, Two, A_LATITUDE_MINUTES, 61),
    Row(0x04e, Always, 0, Seconds, A_LATITUDE_TENTHS, 61),
    Row(0x04e, Always, 0, Word(7), A_SOUTH, 0),
    Row(0x04e, Always, 60, Three, A_LONGITUDE, 61),
    Row(0x04e, Always, 0, Two, A_LONGITUDE_MINUTES, 61),
    Row(0x04e, Always, 0, Seconds, A_LONGITUDE_TENTHS, 61),
    Row(0x04e, Always, 0, Word(8), A_WEST, 0),
    Row(0x04e, Always, 81, Tens, A_LEVEL, 82),
    Row(0x04e, Always, 60, Number, A_YEAR, 65),
    Row(0x04e, Always, 0, Two, A_MONTH, 65),
    Row(0x04e, Always, 0, Two, A_DAY, 61),
    Row(0x04e, Always, 0, Two, A_HOURS, 66),
    Row(0x04e, Always, 0, Two, A_MINUTES, 0),
    Row(0x04e, Same(A_HAS_SECONDS, 1), 66, Two, A_SECONDS, 0),
    Row(0x04e, Always, 83, Number, A_ACCURACY, 63),
    Row(0x04e, Always, 0, Word(5), A_ACCURACY, 64),
    Row(0x04e, Always, 84, Word(9), A_UNITS, 0),
    Row(0x04e, Always, 85, Word(9), A_AVOIDANCE, 0),
    Row(0x04a, Bit(A_ELEMENTS, 6), 86, Octets, A_ADDRESS, 0),
    Row(0x004, Bit(A_ELEMENTS, 1), 86, Octets, A_ADDRESS, 0),
    Row(0x04a, Bit(A_ELEMENTS, 4), 60, Nothing, 0, 28),
    Row(0x004, Bit(A_ELEMENTS, 0), 60, Nothing, 0, 28),
    Row(0x04e, Bit(A_GROUND_PARTS, 2), 87, Tenths, A_TRACK, 0),
    Row(
        0x04e,
        Bit(A_GROUND_PARTS, 1),
        88,
        Signed,
        A_GROUND_SPEED,
        89,
    ),
    Row(0x04e, Bit(A_GROUND_PARTS, 0), 90, Tens, A_GROUND_RATE, 91),
    Row(0x04a, Bit(A_ELEMENTS, 3), 60, Nothing, 0, 29),
    Row(0x04a, Bit(A_AIR_PARTS, 2), 92, Tenths, A_HEADING, 0),
    Row(0x04a, Other(A_MACH, 0), 93, Thousandths, A_MACH, 0),
    Row(0x04a, Other(A_AIR_SPEED, 0), 94, Number, A_IAS, 89),
    Row(0x04a, Bit(A_AIR_PARTS, 0), 90, Tens, A_AIR_RATE, 91),
    Row(0x04a, Bit(A_ELEMENTS, 2), 60, Nothing, 0, 30),
    Row(
        0x04a,
        Bit(A_WEATHER_PARTS, 2),
        95,
        Number,
        A_WIND_DIRECTION,
        0,
    ),
    Row(
        0x04a,
        Masked(A_WEATHER_PARTS, 12, 12),
        96,
        Number,
        A_WIND_SPEED,
        89,
    ),
    Row(
        0x04a,
        Masked(A_WEATHER_PARTS, 12, 8),
        97,
        Number,
        A_WIND_SPEED,
        89,
    ),
    Row(
        0x04a,
        Bit(A_WEATHER_PARTS, 1),
        98,
        Quarters,
        A_TEMPERATURE,
        99,
    ),
    Row(0x04a, Bit(A_WEATHER_PARTS, 0), 100, Number, A_TURBULENCE, 0),
];

// `f` are the numbers of a PDU, and `items` the octets of its list.
pub(crate) fn put_air(out: &mut Page, at: usize, f: &[u32], items: &[u8]) -> usize
    ensures { Writes (page out.old at) (air_words f.now items.now) (page out.new result) }
{
    put_rows(out, at, &AIR, f, items)
}
