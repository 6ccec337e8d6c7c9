// The calls on a link, one function each.
ghost use Rattle.std.specs.Prelude.{[]};
ghost use Rattle.host_numbers.specs.UplinkNumbers.{ground_at};
ghost use Rattle.ground.specs.declared.call.Call.TheVariants.{Request, UserAbort, Elapse, StartConfirm, StartRejected, Data, EndConfirm, PeerAbort, AirAbort, Down};
ghost use Rattle.host_record.specs.Hosting.{hosted, Hosts, made, Makes};

use ground::call::Call;
use host_numbers::uplink::ground_at;
use host_record::step::{make, step};

// A new link from ten settings in watch order.
pub fn adsc_open(settings: &[u32], link: &mut [u8]) -> u8
    ensures { Makes (made settings.now link.old) result link.new }
{
    make(settings, link)
}

// A request: a ground PDU as flat numbers.
pub fn adsc_request(link: &mut [u8], numbers: &[u32], answer: &mut [u8]) -> u8
    ensures { Hosts (hosted (Request (ground_at numbers.now)) [] link.old answer.old) result link.new answer.new }
{
    step(link, Call::Request(ground_at(numbers)), b"", answer)
}

pub fn adsc_user_abort(link: &mut [u8], answer: &mut [u8]) -> u8
    ensures { Hosts (hosted UserAbort [] link.old answer.old) result link.new answer.new }
{
    step(link, Call::UserAbort, b"", answer)
}

pub fn adsc_elapse(link: &mut [u8], seconds: u32, answer: &mut [u8]) -> u8
    ensures { Hosts (hosted (Elapse seconds) [] link.old answer.old) result link.new answer.new }
{
    step(link, Call::Elapse(seconds), b"", answer)
}

pub fn adsc_start_confirm(link: &mut [u8], octets: &[u8], answer: &mut [u8]) -> u8
    ensures { Hosts (hosted StartConfirm octets.now link.old answer.old) result link.new answer.new }
{
    step(link, Call::StartConfirm, octets, answer)
}

pub fn adsc_start_rejected(link: &mut [u8], answer: &mut [u8]) -> u8
    ensures { Hosts (hosted StartRejected [] link.old answer.old) result link.new answer.new }
{
    step(link, Call::StartRejected, b"", answer)
}

pub fn adsc_data(link: &mut [u8], octets: &[u8], answer: &mut [u8]) -> u8
    ensures { Hosts (hosted Data octets.now link.old answer.old) result link.new answer.new }
{
    step(link, Call::Data, octets, answer)
}

pub fn adsc_end_confirm(link: &mut [u8], answer: &mut [u8]) -> u8
    ensures { Hosts (hosted EndConfirm [] link.old answer.old) result link.new answer.new }
{
    step(link, Call::EndConfirm, b"", answer)
}

pub fn adsc_peer_abort(link: &mut [u8], answer: &mut [u8]) -> u8
    ensures { Hosts (hosted PeerAbort [] link.old answer.old) result link.new answer.new }
{
    step(link, Call::PeerAbort, b"", answer)
}

pub fn adsc_air_abort(link: &mut [u8], octets: &[u8], answer: &mut [u8]) -> u8
    ensures { Hosts (hosted AirAbort octets.now link.old answer.old) result link.new answer.new }
{
    step(link, Call::AirAbort, octets, answer)
}

pub fn adsc_down(link: &mut [u8], answer: &mut [u8]) -> u8
    ensures { Hosts (hosted Down [] link.old answer.old) result link.new answer.new }
{
    step(link, Call::Down, b"", answer)
}
