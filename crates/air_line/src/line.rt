// The call that a line asks of the air link.
ghost use Rattle.std.specs.Prelude.{◌≡◌, List, ℕ, length, take};
ghost use Rattle.pdu_parts.specs.Lists.{no_list};
ghost use Rattle.pdu.specs.Answers.{heard};
ghost use Rattle.air_line.specs.Lines.{parsed_with, parsed_in, bare_line, request_line, plain_call, octets_call, number_call, parsed_into};

use air::call::Call;
use pdu::decode_air;
use pdu::downlink::AirPdu;
use pdu_parts::lists::{Listed, no_list};
use refusals::Refusal;
use script::line::{ALONE, HEX, Held, NEVER, NUMBER, read_line};
use text::least;

// The words by their numbers.
const REQ: usize = 2;

const USER_ABORT: usize = 3;

const ELAPSE: usize = 4;

const START_IND: usize = 5;

const DATA: usize = 6;

const END_IND: usize = 7;

const PEER_ABORT: usize = 8;

const GROUND_ABORT: usize = 9;

const DOWN: usize = 10;

// A call with the number of octets that stand beside it, or a line that is not readable.
#[derive(Drop)]
pub enum LineCall {
    Unread,
    Makes(Call, usize),
}

// The list of a request stands beside the call; it is empty beside any other.
#[derive(Drop)]
pub struct AirLine {
    pub call: LineCall,
    pub list: Listed,
}

fn bare(call: LineCall) -> AirLine
    ensures { result ≡ bare_line call }
{
    let list = no_list();
    AirLine { call, list }
}

// A request is an aircraft PDU that reads.
fn request_line(r: Result<AirPdu, Refusal>) -> AirLine
    ensures { result ≡ request_line (heard r) }
{
    match r {
        Ok(pdu) => AirLine {
            call: LineCall::Makes(Call::Request(pdu.kind), 0),
            list: pdu.list,
        },
        Err(_) => bare(LineCall::Unread),
    }
}

// The call of word w that has no list, with the first n octets.
fn plain_call(w: usize, n: usize) -> LineCall
    ensures { (o : List ℕ) → parsed_with result no_list o ≡ plain_call w (take n o) }
{
    match w {
        USER_ABORT => LineCall::Makes(Call::UserAbort, 0),
        START_IND => LineCall::Makes(Call::StartInd, n),
        DATA => LineCall::Makes(Call::Data, n),
        END_IND => LineCall::Makes(Call::EndInd, n),
        PEER_ABORT => LineCall::Makes(Call::PeerAbort, 0),
        GROUND_ABORT => LineCall::Makes(Call::GroundAbort, n),
        DOWN => LineCall::Makes(Call::Down, 0),
        _ => LineCall::Unread,
    }
}

// The call of word w, with the first n octets.
fn octets_call(w: usize, n: usize, octets: &[u8]) -> AirLine
    ensures { parsed_in result octets.now ≡ octets_call w (take n octets.now) }
{
    if w == REQ {
        let m = least(n, octets.len());
        return request_line(decode_air(&octets[..m]));
    }
    bare(plain_call(w, n))
}

// The call of word w, with a number.
fn number_call(w: usize, n: u32) -> AirLine
    ensures { (o : List ℕ) → parsed_in result o ≡ number_call w n }
{
    if w == ELAPSE {
        return bare(LineCall::Makes(Call::Elapse(n), 0));
    }
    bare(LineCall::Unread)
}

// What a line asks of a box that has its setting. The octets of the call come to the front of `octets`, which is to have room for those of any line.
pub fn parse_line(line: &[u8], octets: &mut [u8]) -> AirLine
    ensures { parsed_in result octets.new ≡ parsed_into (length octets.old) line.now }
{
    let heard = read_line(
        line,
        b"setrequser-abortelapsestart-inddataend-indpeer-abortground-abortdown",
        &[0, 0, 3, 6, 16, 22, 31, 35, 42, 52, 64, 68],
        &[
            NEVER, NEVER, HEX, ALONE, NUMBER, HEX, HEX, HEX, ALONE, HEX, ALONE,
        ],
        octets,
    );
    let w = heard.word;
    let held = heard.held;
    match held {
        Held::Octets(n) => octets_call(w, n, octets),
        Held::Number(n) => number_call(w, n),
        Held::Unread => bare(LineCall::Unread),
    }
}
