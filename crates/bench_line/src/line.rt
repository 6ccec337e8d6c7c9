// The call that a line asks.
ghost use Rattle.std.specs.Prelude.{◌≡◌, List, ℕ, length, get_or, take};
ghost use Rattle.pdu.specs.Answers.{heard};
ghost use Rattle.script.specs.Fields.{held_in};
ghost use Rattle.script.specs.Lines.{call_of, shapes_of};
ghost use Rattle.bench_line.specs.Words.{ground_words};
ghost use Rattle.bench_line.specs.Lines.{ground_script, parsed_in, request_call, octets_call, number_call, parsed_into};

use ground::call::Call;
use pdu::decode_ground;
use pdu::uplink::Ground;
use refusals::Refusal;
use script::line::{ALONE, HEX, Held, NEVER, NUMBER, read_line, shape_at};
use text::least;

// The words by their numbers, in the order of 01.
const REQ: usize = 2;

const USER_ABORT: usize = 3;

const ELAPSE: usize = 4;

const START_CNF: usize = 5;

const START_REJ: usize = 6;

const DATA: usize = 7;

const END_CNF: usize = 8;

const PEER_ABORT: usize = 9;

const AIR_ABORT: usize = 10;

const DOWN: usize = 11;

// What may follow each of them, the empty one first.
const SHAPES: [u8; 12] = [
    NEVER, NEVER, HEX, ALONE, NUMBER, HEX, ALONE, HEX, ALONE, ALONE, HEX, ALONE,
];

// What may follow word w.
pub fn shape_of(w: usize) -> u8
    ensures { result ≡ get_or (shapes_of ground_words) w 0 }
{
    shape_at(&SHAPES, w)
}

// A call with the number of octets that stand beside it, or a line that is not readable.
#[derive(Drop)]
pub enum LineCall {
    Unread,
    Makes(Call, usize),
}

// A request is a ground PDU that reads.
fn request_call(a: Result<Ground, Refusal>) -> LineCall
    ensures { result ≡ request_call (heard a) }
{
    match a {
        Ok(g) => LineCall::Makes(Call::Request(g), 0),
        Err(_) => LineCall::Unread,
    }
}

// The call of word w, with the first n octets.
fn octets_call(w: usize, n: usize, octets: &[u8]) -> LineCall
    ensures { parsed_in result octets.now ≡ octets_call w (take n octets.now) }
{
    match w {
        REQ => {
            let m = least(n, octets.len());
            request_call(decode_ground(&octets[..m]))
        }
        USER_ABORT => LineCall::Makes(Call::UserAbort, 0),
        START_CNF => LineCall::Makes(Call::StartConfirm, n),
        START_REJ => LineCall::Makes(Call::StartRejected, 0),
        DATA => LineCall::Makes(Call::Data, n),
        END_CNF => LineCall::Makes(Call::EndConfirm, 0),
        PEER_ABORT => LineCall::Makes(Call::PeerAbort, 0),
        AIR_ABORT => LineCall::Makes(Call::AirAbort, n),
        DOWN => LineCall::Makes(Call::Down, 0),
        _ => LineCall::Unread,
    }
}

// The call of word w, with a number.
fn number_call(w: usize, n: u32) -> LineCall
    ensures { (o : List ℕ) → parsed_in result o ≡ number_call w n }
{
    if w == ELAPSE {
        return LineCall::Makes(Call::Elapse(n), 0);
    }
    LineCall::Unread
}

// The call of word w, from what follows it.
pub fn make_call(w: usize, held: Held, octets: &[u8]) -> LineCall
    ensures { parsed_in result octets.now ≡ call_of ground_script w (held_in held octets.now) }
{
    match held {
        Held::Octets(n) => octets_call(w, n, octets),
        Held::Number(n) => number_call(w, n),
        Held::Unread => LineCall::Unread,
    }
}

// What a line asks of a box that has its settings. The octets of the call come to the front of `octets`, which is to have room for those of any line.
pub fn parse_line(line: &[u8], octets: &mut [u8]) -> LineCall
    ensures { parsed_in result octets.new ≡ parsed_into (length octets.old) line.now }
{
    let heard = read_line(
        line,
        b"setrequser-abortelapsestart-cnfstart-rejdataend-cnfpeer-abortair-abortdown",
        &[0, 0, 3, 6, 16, 22, 31, 40, 44, 51, 61, 70, 74],
        &SHAPES,
        octets,
    );
    let w = heard.word;
    let held = heard.held;
    make_call(w, held, octets)
}
