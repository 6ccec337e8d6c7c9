// A PDU as its octets, written back from its value.
ghost use Rattle.text.specs.Page.{page, Writes};
ghost use Rattle.per.specs.Written.{told};
ghost use Rattle.pdu.specs.DownlinkTable.{air_c};
ghost use Rattle.pdu.specs.UplinkTable.{ground_c};
ghost use Rattle.pdu_words.specs.LineText.{written_text, coded_text};

use crate::page::Page;
use pdu::downlink::{Air, AirPdu};
use pdu::uplink::Ground;
use pdu_parts::lists::Listed;
use refusals::Refusal;
use text::words::put_refused;
use text_lines::input::shown;

fn put_written(out: &mut Page, at: usize, w: Result<usize, Refusal>, back: &[u8]) -> usize
    ensures { Writes (page out.old at) (written_text (told w) back.now) (page out.new result) }
{
    match w {
        Ok(n) => {
            let a = text::put_text(out, at, b"ok ");
            let m = shown(n, back);
            text::put_hex(out, a, &back[..m])
        }
        Err(refusal) => put_refused(out, at, refusal.number()),
    }
}

pub(crate) fn put_air(out: &mut Page, at: usize, kind: Air, list: Listed) -> usize
    ensures { Writes (page out.old at) (coded_text air_c (record { kind = kind; list = list })) (page out.new result) }
{
    let mut back = [0u8; 128];
    let w = pdu::encode_air(AirPdu { kind, list }, &mut back);
    put_written(out, at, w, &back)
}

pub(crate) fn put_ground(out: &mut Page, at: usize, g: Ground) -> usize
    ensures { Writes (page out.old at) (coded_text ground_c g) (page out.new result) }
{
    let mut back = [0u8; 128];
    let w = pdu::encode_ground(g, &mut back);
    put_written(out, at, w, &back)
}
