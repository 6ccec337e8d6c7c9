// An event contract as numbers: what it asks to be told of stands behind the numbers of a periodic contract.
ghost use Rattle.std.specs.Prelude.{◌≡◌};
ghost use Rattle.host_numbers.specs.ChangeNumbers.{flat_changes, changes_at};

use crate::numbers::{complement, number, signed_at};
use crate::places::*;
use pdu_events::changes::{Changes, Either, LevelRange};

pub(crate) fn flat_changes(a: Changes) -> [u32; G_NUMBERS]
    ensures { result ≡ flat_changes a }
{
    [
        4,
        a.elements,
        0,
        0,
        0,
        0,
        0,
        0,
        0,
        a.lateral,
        complement(a.rate),
        complement(a.range.ceiling),
        complement(a.range.floor),
        a.air.kind,
        a.air.number,
        a.over_ground,
        a.heading,
        a.profile.kind,
        a.profile.number,
        a.track,
        a.level,
    ]
}

pub(crate) fn changes_at(f: &[u32]) -> Changes
    ensures { result ≡ changes_at f.now }
{
    Changes {
        elements: number(f, G_WHAT),
        lateral: number(f, G_LATERAL),
        rate: signed_at(f, G_RATE),
        range: LevelRange {
            ceiling: signed_at(f, G_CEILING),
            floor: signed_at(f, G_FLOOR),
        },
        air: Either {
            kind: number(f, G_AIR_SPEED),
            number: number(f, G_AIR_SPEED_CHANGE),
        },
        over_ground: number(f, G_GROUND_SPEED),
        heading: number(f, G_HEADING),
        profile: Either {
            kind: number(f, G_EXTENDED_PROFILE),
            number: number(f, G_EXTENDED_PROFILE_COUNT),
        },
        track: number(f, G_TRACK),
        level: number(f, G_LEVEL),
    }
}
