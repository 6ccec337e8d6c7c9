// What an event contract asks to be told of. Waypoint change and merit change have a presence bit and no value.
ghost use Rattle.std.specs.Prelude.{◌≡◌, cond, eqb};
ghost use Rattle.pdu_events.specs.Changes.{level_range_c, no_range, either_c, no_either, changes_c};

use crate::elements::*;
use pdu_parts::vectors::Rate;
use per::cursor::{Cursor, Read, Signed, present};
use per::part::{Element, Part};
use per::pen::Pen;

// Tens of feet. A ceiling may stand below its floor.
#[derive(Drop)]
#[derive(Clone, Copy)]
pub struct LevelRange {
    pub ceiling: Signed,
    pub floor: Signed,
}

// One of two numbers: the first of kind 0, the second of kind 1.
#[derive(Drop)]
#[derive(Clone, Copy)]
pub struct Either {
    pub kind: u32,
    pub number: u32,
}

// Lateral deviation in tenths of a nautical mile, vertical rate in tens of feet a minute; air speed in steps of 0.005 Mach or in knots, ground speed in knots; heading and
// track in tenths of a degree; extended profile in steps of 15 minutes or in way points; level in tens of feet.
#[derive(Drop)]
#[derive(Clone, Copy)]
pub struct Changes {
    pub elements: u32,
    pub lateral: u32,
    pub rate: Signed,
    pub range: LevelRange,
    pub air: Either,
    pub over_ground: u32,
    pub heading: u32,
    pub profile: Either,
    pub track: u32,
    pub level: u32,
}

impl Part for LevelRange {
    type Value = LevelRange;

    ghost codec = { level_range_c };

    fn read(c: Cursor, s: &[u8]) -> Read<LevelRange> {
        let ceiling = c.signed(s, 75, 10000);
        let floor = ceiling.next.signed(s, 75, 10000);
        let value = LevelRange {
            ceiling: ceiling.value,
            floor: floor.value,
        };
        Read {
            value,
            next: floor.next,
        }
    }

    fn write(p: Pen, out: &mut [u8; 128], a: LevelRange) -> Pen {
        let p = p.signed(out, a.ceiling, 75, 10000);
        p.signed(out, a.floor, 75, 10000)
    }
}

impl Element for LevelRange {
    ghost none = { no_range };

    fn none() -> LevelRange {
        LevelRange {
            ceiling: Signed { number: 0 },
            floor: Signed { number: 0 },
        }
    }
}

// One of a number of 1..FIRST and a number of 1..SECOND.
pub struct EitherIn<const FIRST: u32, const SECOND: u32> {}

pub type AirSpeedChange = EitherIn<255, 700>;

pub type ProfileRequest = EitherIn<80, 128>;

// The highest number of a kind.
fn top_of(kind: u32, first: u32, second: u32) -> u32
    ensures { result ≡ cond (eqb kind 0) first second }
{
    if kind == 0 { first } else { second }
}

impl<const FIRST: u32, const SECOND: u32> Part for EitherIn<FIRST, SECOND> {
    type Value = Either;

    ghost codec = { either_c FIRST SECOND };

    fn read(c: Cursor, s: &[u8]) -> Read<Either> {
        let kind = c.index(s, 1);
        let number = kind.next.num(s, 1, top_of(kind.value, FIRST, SECOND));
        let value = Either {
            kind: kind.value,
            number: number.value,
        };
        Read {
            value,
            next: number.next,
        }
    }

    fn write(p: Pen, out: &mut [u8; 128], a: Either) -> Pen {
        let p = p.index(out, a.kind, 1);
        p.num(out, a.number, 1, top_of(a.kind, FIRST, SECOND))
    }
}

impl<const FIRST: u32, const SECOND: u32> Element for EitherIn<FIRST, SECOND> {
    ghost none = { no_either };

    fn none() -> Either {
        Either { kind: 0, number: 0 }
    }
}

impl Part for Changes {
    type Value = Changes;

    ghost codec = { changes_c };

    fn read(c: Cursor, s: &[u8]) -> Read<Changes> {
        let bits = c.mask(s, EVENT_BITS, EVENT_BITS, true);
        let v = bits.value;
        let lateral = bits.next.num_if(s, present(v, LATERAL_CHANGE), 0, 2000);
        let rate = Rate::read_if(lateral.next, s, present(v, RATE_CHANGE));
        let range = LevelRange::read_if(rate.next, s, present(v, LEVEL_RANGE));
        let air = AirSpeedChange::read_if(range.next, s, present(v, AIR_SPEED_CHANGE));
        let over_ground = air.next.num_if(s, present(v, GROUND_SPEED_CHANGE), 0, 300);
        let heading = over_ground
            .next
            .num_if(s, present(v, HEADING_CHANGE), 1, 3600);
        let profile = ProfileRequest::read_if(heading.next, s, present(v, PROFILE_CHANGE));
        let track = profile.next.num_if(s, present(v, TRACK_CHANGE), 1, 3600);
        let level = track.next.num_if(s, present(v, LEVEL_CHANGE), 1, 500);
        let value = Changes {
            elements: v,
            lateral: lateral.value,
            rate: rate.value,
            range: range.value,
            air: air.value,
            over_ground: over_ground.value,
            heading: heading.value,
            profile: profile.value,
            track: track.value,
            level: level.value,
        };
        Read {
            value,
            next: level.next,
        }
    }

    fn write(p: Pen, out: &mut [u8; 128], a: Changes) -> Pen {
        let v = a.elements;
        let p = p.mask(out, v, EVENT_BITS, EVENT_BITS, true);
        let p = p.num_if(out, present(v, LATERAL_CHANGE), a.lateral, 0, 2000);
        let p = Rate::write_if(p, out, present(v, RATE_CHANGE), a.rate);
        let p = LevelRange::write_if(p, out, present(v, LEVEL_RANGE), a.range);
        let p = AirSpeedChange::write_if(p, out, present(v, AIR_SPEED_CHANGE), a.air);
        let p = p.num_if(out, present(v, GROUND_SPEED_CHANGE), a.over_ground, 0, 300);
        let p = p.num_if(out, present(v, HEADING_CHANGE), a.heading, 1, 3600);
        let p = ProfileRequest::write_if(p, out, present(v, PROFILE_CHANGE), a.profile);
        let p = p.num_if(out, present(v, TRACK_CHANGE), a.track, 1, 3600);
        p.num_if(out, present(v, LEVEL_CHANGE), a.level, 1, 500)
    }
}
