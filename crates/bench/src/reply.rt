// The answer to one line of a script.
ghost use Rattle.std.specs.Prelude.{◌≡◌};
ghost use Rattle.ground.specs.Runs.{answered};
ghost use Rattle.text.specs.Page.{page};
ghost use Rattle.bench_line.specs.Lines.{parsed_line};
ghost use Rattle.script.specs.Replies.{refused_reply, play_reply, Replies};
ghost use Rattle.bench.specs.Replies.{ground_bench, settings_reply, line_reply};

use bench_line::answer::put_answer;
use bench_line::line::{LineCall, parse_line};
use bench_line::settings::parse_settings;
use ground::call::{Call, answer};
use ground_answer::answer::Answer;
use ground_answer::fresh::open;
use ground_answer::record::Link;
use ground_lent::elapse_lent;
use refusals::SCRIPT_LINE;
use script::line::set_part;
use script::room::line_room;
use text::words::put_refused;
use text::{least, put_text};

// The box at the bench: `ready` once it has its settings, and its link from then on.
#[derive(Drop)]
#[derive(Clone, Copy)]
pub struct Setup {
    pub ready: bool,
    pub link: Link,
}

// The box after a line, and the place of the pen after its text.
#[derive(Drop)]
pub struct Replied {
    pub setup: Setup,
    pub at: usize,
}

fn refuse_line(b: Setup, n: u8, out: &mut [u8], at: usize) -> Replied
    ensures { Replies (refused_reply b n) (page out.old at) result.setup (page out.new result.at) }
{
    let a = put_refused(out, at, n);
    Replied { setup: b, at: a }
}

// Every call, with the clock worked on a lent record.
fn answer_lent(l: Link, call: Call, octets: &[u8]) -> Answer
    ensures { result ≡ answered l call octets.now }
{
    let Call::Elapse(n) = call else {
        return answer(l, call, octets);
    };
    elapse_lent(l, n)
}

// A line for a box that has its settings.
fn play(b: Setup, line: &[u8], out: &mut [u8], at: usize) -> Replied
    ensures { Replies (play_reply ground_bench b (parsed_line line.now)) (page out.old at) result.setup (page out.new result.at) }
{
    let mut octets = line_room();
    let told = parse_line(line, &mut octets);
    let LineCall::Makes(call, n) = told else {
        return refuse_line(b, SCRIPT_LINE, out, at);
    };
    let link = b.link;
    let m = least(n, 2048);
    let a = answer_lent(link, call, &octets[..m]);
    let next = a.link;
    let said = a.said;
    let e = put_answer(out, at, said, &octets[..m]);
    Replied {
        setup: Setup {
            ready: true,
            link: next,
        },
        at: e,
    }
}

// A line with the settings, for a box that has none.
fn set_line(b: Setup, tail: &[u8], out: &mut [u8], at: usize) -> Replied
    ensures { Replies (settings_reply b tail.now) (page out.old at) result.setup (page out.new result.at) }
{
    let Some(list) = parse_settings(tail) else {
        return refuse_line(b, SCRIPT_LINE, out, at);
    };
    let o = open(list);
    let refusal = o.refusal;
    if refusal != 0 {
        return refuse_line(b, refusal, out, at);
    }
    let link = o.link;
    let a = put_text(out, at, b"ok");
    Replied {
        setup: Setup { ready: true, link },
        at: a,
    }
}

// One line, without its number and its end.
pub fn answer_line(b: Setup, line: &[u8], out: &mut [u8], at: usize) -> Replied
    ensures { Replies (line_reply b line.now) (page out.old at) result.setup (page out.new result.at) }
{
    if b.ready {
        return play(b, line, out, at);
    }
    match set_part(line) {
        Some(from) => set_line(b, &line[from..], out, at),
        None => refuse_line(b, SCRIPT_LINE, out, at),
    }
}
