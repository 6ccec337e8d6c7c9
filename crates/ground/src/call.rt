// Every call under one name.
ghost use Rattle.std.specs.Prelude.{◌≡◌};
ghost use Rattle.ground.specs.Runs.{answered};

use crate::arrivals::{data, start_confirm};
use crate::endings::{air_abort, down, end_confirm, peer_abort, start_rejected};
use crate::requests::{request, user_abort};
use ground_answer::answer::Answer;
use ground_answer::clock::elapse;
use ground_answer::record::Link;
use pdu::uplink::Ground;

// The calls on a link, in the order of the script words; the octets of StartConfirm, Data and AirAbort stand beside.
#[derive(Drop)]
#[derive(Clone, Copy)]
pub enum Call {
    Request(Ground),
    UserAbort,
    Elapse(u32),
    StartConfirm,
    StartRejected,
    Data,
    EndConfirm,
    PeerAbort,
    AirAbort,
    Down,
}

#[tactic(auto, unfolding(crate::specs::Runs::answered))]
pub fn answer(l: Link, call: Call, octets: &[u8]) -> Answer
    ensures { result ≡ answered l call octets.now }
{
    match call {
        Call::Request(g) => request(l, g),
        Call::UserAbort => user_abort(l),
        Call::Elapse(n) => elapse(l, n),
        Call::StartConfirm => start_confirm(l, octets),
        Call::StartRejected => start_rejected(l),
        Call::Data => data(l, octets),
        Call::EndConfirm => end_confirm(l),
        Call::PeerAbort => peer_abort(l),
        Call::AirAbort => air_abort(l, octets),
        Call::Down => down(l),
    }
}
