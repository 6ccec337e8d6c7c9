// The answer to one line of an air script.
ghost use Rattle.text.specs.Page.{page};
ghost use Rattle.air_line.specs.Lines.{parsed_line};
ghost use Rattle.script.specs.Fields.{number_after};
ghost use Rattle.script.specs.Replies.{refused_reply, play_reply, Replies};
ghost use Rattle.air_bench.specs.Replies.{air_bench, setting_reply, line_reply};

use air::call::answer;
use air_answer::fresh::open;
use air_answer::record::AirLink;
use air_line::answer::put_answer;
use air_line::line::{LineCall, parse_line};
use refusals::SCRIPT_LINE;
use script::line::{number_after, set_part};
use script::room::line_room;
use text::words::put_refused;
use text::{least, put_text};

// The box at the bench: `ready` once it has its setting, and its link from then on.
#[derive(Drop)]
#[derive(Clone, Copy)]
pub struct Setup {
    pub ready: bool,
    pub link: AirLink,
}

// The box after a line, and the place of the pen after its text.
#[derive(Drop)]
pub struct Replied {
    pub setup: Setup,
    pub at: usize,
}

fn refuse_line(b: Setup, n: u8, out: &mut [u8], at: usize) -> Replied
    ensures { Replies (refused_reply b n) (page out.old at) result.setup (page out.new result.at) }
{
    let a = put_refused(out, at, n);
    Replied { setup: b, at: a }
}

// A line for a box that has its setting.
fn play(b: Setup, line: &[u8], out: &mut [u8], at: usize) -> Replied
    ensures { Replies (play_reply air_bench b (parsed_line line.now)) (page out.old at) result.setup (page out.new result.at) }
{
    let mut octets = line_room();
    let told = parse_line(line, &mut octets);
    let asked = told.call;
    let LineCall::Makes(call, n) = asked else {
        return refuse_line(b, SCRIPT_LINE, out, at);
    };
    let link = b.link;
    let list = told.list;
    let m = least(n, 2048);
    let a = answer(link, call, list, &octets[..m]);
    let next = a.link;
    let said = a.said;
    let e = put_answer(out, at, said, &octets[..m]);
    Replied {
        setup: Setup {
            ready: true,
            link: next,
        },
        at: e,
    }
}

// A line with the setting, for a box that has none.
fn set_line(b: Setup, tail: &[u8], out: &mut [u8], at: usize) -> Replied
    ensures { Replies (setting_reply b (number_after tail.now)) (page out.old at) result.setup (page out.new result.at) }
{
    let v = number_after(tail);
    let Some(n) = v else {
        return refuse_line(b, SCRIPT_LINE, out, at);
    };
    let o = open(n);
    let refusal = o.refusal;
    if refusal != 0 {
        return refuse_line(b, refusal, out, at);
    }
    let link = o.link;
    let a = put_text(out, at, b"ok");
    Replied {
        setup: Setup { ready: true, link },
        at: a,
    }
}

// One line, without its number and its end.
pub fn answer_line(b: Setup, line: &[u8], out: &mut [u8], at: usize) -> Replied
    ensures { Replies (line_reply b line.now) (page out.old at) result.setup (page out.new result.at) }
{
    if b.ready {
        return play(b, line, out, at);
    }
    match set_part(line) {
        Some(from) => set_line(b, &line[from..], out, at),
        None => refuse_line(b, SCRIPT_LINE, out, at),
    }
}
