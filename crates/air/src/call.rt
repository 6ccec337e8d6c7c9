// Every call under one name.
ghost use Rattle.std.specs.Prelude.{◌≡◌};
ghost use Rattle.air.specs.Runs.{answered};

use crate::arrivals::{data, end_ind, start_ind};
use crate::endings::{down, ground_abort, peer_abort};
use crate::requests::{request, user_abort};
use air_answer::answer::Answer;
use air_answer::clock::elapse;
use air_answer::record::AirLink;
use pdu::downlink::{Air, AirPdu};
use pdu_parts::lists::Listed;

// The calls on an air link; the list of a Request and the octets of StartInd, Data, EndInd and GroundAbort stand beside.
#[derive(Drop)]
pub enum Call {
    Request(Air),
    UserAbort,
    Elapse(u32),
    StartInd,
    Data,
    EndInd,
    PeerAbort,
    GroundAbort,
    Down,
}

#[tactic(auto, unfolding(crate::specs::Runs::answered))]
pub fn answer(l: AirLink, call: Call, list: Listed, octets: &[u8]) -> Answer
    ensures { result ≡ answered l call list octets.now }
{
    match call {
        Call::Request(kind) => request(l, AirPdu { kind, list }),
        Call::UserAbort => user_abort(l),
        Call::Elapse(n) => elapse(l, n),
        Call::StartInd => start_ind(l, octets),
        Call::Data => data(l, octets),
        Call::EndInd => end_ind(l, octets),
        Call::PeerAbort => peer_abort(l),
        Call::GroundAbort => ground_abort(l, octets),
        Call::Down => down(l),
    }
}
