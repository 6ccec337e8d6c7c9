// The calls on a link, one function each.
ghost use Rattle.std.specs.Prelude.{[]};
ghost use Rattle.host_numbers.specs.UplinkNumbers.{ground_at};
ghost use Rattle.ground.specs.declared.call.Call.TheVariants.{Request, UserAbort, Elapse, StartConfirm, StartRejected, Data, EndConfirm, PeerAbort, AirAbort, Down};
ghost use Rattle.host_record.specs.Hosting.{hosted, Hosts, made, Makes};

// A new link from ten settings in watch order.
#[unsafe(no_mangle)]
pub extern "C" fn adsc_open(settings: &[u32], link: &mut [u8]) -> u8
    ensures { Makes (made settings.now link.old) result link.new }
{
    adschost::calls::adsc_open(settings, link)
}

// A request: a ground PDU as flat numbers.
#[unsafe(no_mangle)]
pub extern "C" fn adsc_request(link: &mut [u8], numbers: &[u32], answer: &mut [u8]) -> u8
    ensures { Hosts (hosted (Request (ground_at numbers.now)) [] link.old answer.old) result link.new answer.new }
{
    adschost::calls::adsc_request(link, numbers, answer)
}

#[unsafe(no_mangle)]
pub extern "C" fn adsc_user_abort(link: &mut [u8], answer: &mut [u8]) -> u8
    ensures { Hosts (hosted UserAbort [] link.old answer.old) result link.new answer.new }
{
    adschost::calls::adsc_user_abort(link, answer)
}

#[unsafe(no_mangle)]
pub extern "C" fn adsc_elapse(link: &mut [u8], seconds: u32, answer: &mut [u8]) -> u8
    ensures { Hosts (hosted (Elapse seconds) [] link.old answer.old) result link.new answer.new }
{
    adschost::calls::adsc_elapse(link, seconds, answer)
}

#[unsafe(no_mangle)]
pub extern "C" fn adsc_start_confirm(link: &mut [u8], octets: &[u8], answer: &mut [u8]) -> u8
    ensures { Hosts (hosted StartConfirm octets.now link.old answer.old) result link.new answer.new }
{
    adschost::calls::adsc_start_confirm(link, octets, answer)
}

#[unsafe(no_mangle)]
pub extern "C" fn adsc_start_rejected(link: &mut [u8], answer: &mut [u8]) -> u8
    ensures { Hosts (hosted StartRejected [] link.old answer.old) result link.new answer.new }
{
    adschost::calls::adsc_start_rejected(link, answer)
}

#[unsafe(no_mangle)]
pub extern "C" fn adsc_data(link: &mut [u8], octets: &[u8], answer: &mut [u8]) -> u8
    ensures { Hosts (hosted Data octets.now link.old answer.old) result link.new answer.new }
{
    adschost::calls::adsc_data(link, octets, answer)
}

#[unsafe(no_mangle)]
pub extern "C" fn adsc_end_confirm(link: &mut [u8], answer: &mut [u8]) -> u8
    ensures { Hosts (hosted EndConfirm [] link.old answer.old) result link.new answer.new }
{
    adschost::calls::adsc_end_confirm(link, answer)
}

#[unsafe(no_mangle)]
pub extern "C" fn adsc_peer_abort(link: &mut [u8], answer: &mut [u8]) -> u8
    ensures { Hosts (hosted PeerAbort [] link.old answer.old) result link.new answer.new }
{
    adschost::calls::adsc_peer_abort(link, answer)
}

#[unsafe(no_mangle)]
pub extern "C" fn adsc_air_abort(link: &mut [u8], octets: &[u8], answer: &mut [u8]) -> u8
    ensures { Hosts (hosted AirAbort octets.now link.old answer.old) result link.new answer.new }
{
    adschost::calls::adsc_air_abort(link, octets, answer)
}

#[unsafe(no_mangle)]
pub extern "C" fn adsc_down(link: &mut [u8], answer: &mut [u8]) -> u8
    ensures { Hosts (hosted Down [] link.old answer.old) result link.new answer.new }
{
    adschost::calls::adsc_down(link, answer)
}
