// The octets of an aircraft PDU that goes.
ghost use Rattle.std.specs.Prelude.{◌≡◌, []};
ghost use Rattle.pdu.specs.DownlinkTable.{bare_air};
ghost use Rattle.air_answer.specs.Sent.{sent, letter, outgoing};

use pdu::downlink::{Air, AirPdu};
use pdu::encode_air;
use pdu_parts::lists::no_list;
use refusals::Refusal;

// The most octets of an aircraft PDU: those of a negative ack with 16 names, which has 916 bits.
pub const ROOM: usize = 115;

// The first n octets; the others are 0.
#[derive(Drop)]
#[derive(Clone, Copy)]
pub struct Sent {
    pub n: usize,
    pub octets: [u8; ROOM],
}

pub fn nothing() -> Sent
    ensures { result ≡ sent [] }
{
    Sent {
        n: 0,
        octets: [0; ROOM],
    }
}

// The octets that go, or why the PDU's fields are refused.
#[tactic(auto, using(crate::proofs::Outgoings::outgoing_octets, crate::proofs::Outgoings::outgoing_refused))]
pub fn write(a: AirPdu) -> Result<Sent, Refusal>
    ensures { letter result ≡ outgoing a }
{
    let mut octets = [0u8; ROOM];
    let n = encode_air(a, &mut octets)?;
    Ok(Sent { n, octets })
}

// The octets of a PDU without a list that the box makes itself.
pub fn own(kind: Air) -> Sent
    ensures { result ≡ (outgoing (bare_air kind)).sent }
{
    let list = no_list();
    match write(AirPdu { kind, list }) {
        Ok(sent) => sent,
        Err(_) => nothing(),
    }
}
