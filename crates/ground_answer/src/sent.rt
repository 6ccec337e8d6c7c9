// The octets of a ground PDU that goes.
ghost use Rattle.std.specs.Prelude.{◌≡◌, []};
ghost use Rattle.ground_answer.specs.Sent.{sent, letter, outgoing};

use pdu::encode_ground;
use pdu::uplink::Ground;
use refusals::Refusal;

// No ground PDU is longer: an event contract with every element has 129 bits.
pub const SENT_MOST: usize = 17;

// The first n octets; the others are 0.
#[derive(Drop)]
#[derive(Clone, Copy)]
pub struct Sent {
    pub n: usize,
    pub octets: [u8; SENT_MOST],
}

pub fn nothing() -> Sent
    ensures { result ≡ sent [] }
{
    Sent {
        n: 0,
        octets: [0; SENT_MOST],
    }
}

// The octets that go, or why the PDU's fields are refused.
#[tactic(auto, using(crate::proofs::Outgoings::outgoing_octets, crate::proofs::Outgoings::outgoing_refused))]
pub fn write(g: Ground) -> Result<Sent, Refusal>
    ensures { letter result ≡ outgoing g }
{
    let mut octets = [0u8; SENT_MOST];
    let n = encode_ground(g, &mut octets)?;
    Ok(Sent { n, octets })
}

// The octets of a PDU that the box makes itself.
pub fn own(g: Ground) -> Sent
    ensures { result ≡ (outgoing g).sent }
{
    match write(g) {
        Ok(sent) => sent,
        Err(_) => nothing(),
    }
}
