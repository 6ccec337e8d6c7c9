// A PDU in words for a person.
ghost use Rattle.std.specs.Prelude.{take};
ghost use Rattle.text.specs.Page.{page, Writes};
ghost use Rattle.host_numbers.specs.DownlinkNumbers.{flat_air};
ghost use Rattle.host_numbers.specs.UplinkNumbers.{flat_ground};
ghost use Rattle.pdu_words.specs.AirRows.{air_words};
ghost use Rattle.pdu_words.specs.GroundRows.{ground_words};

use crate::page::Page;
use host_numbers::downlink::flat_air;
use host_numbers::uplink::flat_ground;
use pdu::downlink::Air;
use pdu::uplink::Ground;
use pdu_parts::lists::Listed;

pub(crate) fn put_air(out: &mut Page, at: usize, kind: Air, list: Listed) -> usize
    ensures { Writes (page out.old at) (air_words (flat_air kind list.count) (take 128 list.items)) (page out.new result) }
{
    let f = flat_air(kind, list.count);
    let items = list.items;
    crate::air::put_air(out, at, &f, &items)
}

pub(crate) fn put_ground(out: &mut Page, at: usize, g: Ground) -> usize
    ensures { Writes (page out.old at) (ground_words (flat_ground g)) (page out.new result) }
{
    let f = flat_ground(g);
    crate::ground::put_ground(out, at, &f)
}
