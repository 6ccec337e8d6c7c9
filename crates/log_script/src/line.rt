// The record of a line.
ghost use Rattle.std.specs.Prelude.{◌≡◌, List, [], ℕ, ◌≤◌, length, take};
ghost use Rattle.per.specs.Pdu.{encode};
ghost use Rattle.pdu.specs.declared.uplink.Ground.{Ground};
ghost use Rattle.pdu.specs.UplinkTable.{ground_c};
ghost use Rattle.octets.specs.Octets.{quads};
ghost use Rattle.ground.specs.declared.call.Call.TheVariants.{Request};
ghost use Rattle.script.specs.Replies.{play_reply};
ghost use Rattle.bench_line.specs.Lines.{parsed_line};
ghost use Rattle.bench_line.specs.Settings.{settings_in};
ghost use Rattle.bench.specs.Replies.{ground_bench, settings_reply};
ghost use Rattle.log_play.specs.Records.{record_of};
ghost use Rattle.log_script.specs.Heard.{heard, heard_into, call_kept, settings_kept, Hears};

use bench::reply::Setup;
use bench_line::line::{LineCall, parse_line};
use bench_line::settings::parse_settings;
use ground::call::{Call, answer};
use ground_answer::fresh::open;
use ground_answer::record::Link;
use host_record::record::{RECORD, save};
use log_play::record::SETTINGS;
use octets::put_octets;
use pdu::encode_ground;
use pdu::uplink::Ground;
use script::line::set_part;
use text::least;

// Room for the octets of the longest line.
const ROOM: usize = 2048;

// The record that is kept of a line: its data are the first `len` octets of a buffer.
#[derive(Clone, Copy, PartialEq, Eq, Debug)]
pub struct Kept {
    pub kind: u8,
    pub seconds: u32,
    pub len: usize,
}

// The box after a line, and its record.
#[derive(Drop)]
#[derive(Clone, Copy)]
pub struct Entry {
    pub setup: Setup,
    pub kept: Option<Kept>,
}

// A line that is refused: it leaves the box, and no record.
fn nothing(b: Setup) -> Entry
    ensures { (o : List ℕ) → Hears (heard b []) result o }
{
    Entry {
        setup: b,
        kept: None,
    }
}

// The place of a call's script word, from 0: the octet that the log's form has for it.
fn kind_of(call: Call) -> u8
    ensures { (s : List ℕ) → result ≡ (record_of call s).kind }
{
    match call {
        Call::Request(_) => 1,
        Call::UserAbort => 2,
        Call::Elapse(_) => 3,
        Call::StartConfirm => 4,
        Call::StartRejected => 5,
        Call::Data => 6,
        Call::EndConfirm => 7,
        Call::PeerAbort => 8,
        Call::AirAbort => 9,
        Call::Down => 10,
    }
}

fn seconds_of(call: Call) -> u32
    ensures { (s : List ℕ) → result ≡ (record_of call s).seconds }
{
    match call {
        Call::Elapse(n) => n,
        _ => 0,
    }
}

// The written PDU of a request comes to the front of the octets.
fn put_request(g: Ground, octets: &mut [u8]) -> usize
    requires { (ground_c.chk g ≡ 0) × (2048 ≤ length octets.old) }
    ensures { take result octets.new ≡ encode ground_c g }
{
    let w = encode_ground(g, octets);
    match w {
        Ok(n) => n,
        Err(_) => 0,
    }
}

// The data of a call, beside which n octets stand, come to the front of them. A request is one that may be written.
#[tactic(auto, unfolding(log_play::specs::Records::record_of))]
fn put_data(call: Call, n: usize, octets: &mut [u8]) -> usize
    requires { ((g : Ground) → call ≡ Request g → ground_c.chk g ≡ 0) × (2048 ≤ length octets.old) }
    ensures { take result octets.new ≡ (record_of call (take n octets.old)).octets }
{
    match call {
        Call::Request(g) => put_request(g, octets),
        Call::StartConfirm | Call::Data | Call::AirAbort => n,
        _ => 0,
    }
}

// A line for a box that has its settings.
fn hear_call(b: Setup, line: &[u8], octets: &mut [u8]) -> Entry
    requires { 2048 ≤ length octets.old }
    ensures { Hears (heard (play_reply ground_bench b (parsed_line line.now)).box (call_kept b.link (parsed_line line.now))) result octets.new }
{
    let told = parse_line(line, octets);
    let LineCall::Makes(call, n) = told else {
        return nothing(b);
    };
    let m = least(n, octets.len());
    let a = answer(b.link, call, &octets[..m]);
    let setup = Setup {
        ready: true,
        link: a.link,
    };
    if a.said.refusal != 0 {
        return nothing(setup);
    }
    let len = put_data(call, m, octets);
    let kept = Kept {
        kind: kind_of(call),
        seconds: seconds_of(call),
        len,
    };
    Entry {
        setup,
        kept: Some(kept),
    }
}

// The settings of a link come to the front of the octets.
fn put_settings(l: Link, octets: &mut [u8]) -> usize
    requires { 2048 ≤ length octets.old }
    ensures { take result octets.new ≡ quads l.setting }
{
    let mut record = [0u8; RECORD];
    save(l, &mut record);
    put_octets(octets, 0, &record);
    SETTINGS
}

// A line with the settings, for a box that has none.
fn hear_settings(b: Setup, tail: &[u8], octets: &mut [u8]) -> Entry
    requires { 2048 ≤ length octets.old }
    ensures { Hears (heard (settings_reply b tail.now).box (settings_kept (settings_in tail.now))) result octets.new }
{
    let Some(list) = parse_settings(tail) else {
        return nothing(b);
    };
    let o = open(list);
    if o.refusal != 0 {
        return nothing(b);
    }
    let link = o.link;
    let len = put_settings(link, octets);
    let kept = Kept {
        kind: 0,
        seconds: 0,
        len,
    };
    Entry {
        setup: Setup { ready: true, link },
        kept: Some(kept),
    }
}

// The record of one line. Its data come to the front of `octets`, which is to have room for those of any line.
pub fn hear_line(b: Setup, line: &[u8], octets: &mut [u8]) -> Entry
    ensures { Hears (heard_into (length octets.old) b line.now) result octets.new }
{
    if octets.len() < ROOM {
        return nothing(b);
    }
    if b.ready {
        return hear_call(b, line, octets);
    }
    match set_part(line) {
        Some(from) => hear_settings(b, &line[from..], octets),
        None => nothing(b),
    }
}
