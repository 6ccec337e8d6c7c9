// One record of the flight log, played on a box.
ghost use Rattle.std.specs.Prelude.{◌≡◌, length};
ghost use Rattle.script.specs.Fields.{held_in};
ghost use Rattle.log_blocks.specs.Record.{rec};
ghost use Rattle.log_play.specs.Steps.{field_in, accepted, call_step, call_in, beside_of, settings_long, settings_of, open_step};
ghost use Rattle.log_play.specs.Plays.{stays, step_in, stepped_by};

use bench::reply::Setup;
use bench_line::line::{LineCall, make_call, shape_of};
use ground_answer::answer::{Answer, Said, refuse};
use ground_answer::fresh::open;
use ground_tables::names::LI1;
use host_record::answer::ANSWER;
use host_record::record::{RECORD, load, save};
use host_record::step::serve;
use link::moves::TIMERS;
use script::line::{ALONE, HEX, Held, NUMBER};
use text::least;

// The octets of a settings record: those with which a link record begins. Before there was LI1 it had 36.
pub const SETTINGS: usize = 40;

const OLD_SETTINGS: usize = 36;

// The setting of LI1 where the record has none.
const OLD_LI1: u32 = 86400;

// Whether a record `went`, the box after it, what was said, and how many octets of its data came with the call. All stand there in both cases: no Option.
#[derive(Drop)]
pub struct Stepped {
    pub went: bool,
    pub setup: Setup,
    pub said: Said,
    pub came: usize,
}

// A record that is refused: the box stays, and nothing is said.
fn stay(b: Setup) -> Stepped
    ensures { result ≡ stays b }
{
    Stepped {
        went: false,
        setup: b,
        said: refuse(b.link, 0).said,
        came: 0,
    }
}

// An answer to a call with which `came` octets came: a log has accepted calls alone.
fn accept(b: Setup, a: Answer, came: usize) -> Stepped
    ensures { result ≡ step_in b came (accepted a) }
{
    if a.said.refusal != 0 {
        return stay(b);
    }
    Stepped {
        went: true,
        setup: Setup {
            ready: true,
            link: a.link,
        },
        said: a.said,
        came,
    }
}

// What a record has for a word that may be followed so. A field that its call does not use is to be empty.
#[tactic(auto, unfolding(crate::specs::Steps::field_in, script::specs::Fields::held_in))]
pub fn hold_record(shape: u8, seconds: u32, octets: &[u8]) -> Held
    ensures { held_in result octets.now ≡ field_in shape seconds octets.now }
{
    match shape {
        NUMBER if octets.is_empty() => Held::Number(seconds),
        HEX if seconds == 0 => Held::Octets(octets.len()),
        ALONE if seconds == 0 && octets.is_empty() => Held::Octets(0),
        _ => Held::Unread,
    }
}

// A record for a box that has its settings: the call on the box's link as a host keeps it.
fn play_call(b: Setup, kind: u8, seconds: u32, octets: &[u8]) -> Stepped
    ensures { result ≡ step_in b (length (beside_of (call_in (rec kind seconds octets.now)))) (call_step b.link (call_in (rec kind seconds octets.now))) }
{
    let w = kind as usize + 1;
    let shape = shape_of(w);
    let held = hold_record(shape, seconds, octets);
    let told = make_call(w, held, octets);
    let LineCall::Makes(call, n) = told else {
        return stay(b);
    };
    let mut record = [0u8; RECORD];
    let mut out = [0u8; ANSWER];
    save(b.link, &mut record);
    let m = least(n, octets.len());
    let said = serve(&mut record, call, &octets[..m], &mut out);
    let link = load(&record);
    accept(b, Answer { link, said }, m)
}

// Whether a settings record has one of its two lengths.
fn is_long(n: usize) -> bool
    ensures { result ≡ settings_long n }
{
    n == SETTINGS || n == OLD_SETTINGS
}

// The settings that the data of a record spells.
fn settings_in(octets: &[u8]) -> [u32; TIMERS]
    ensures { result ≡ settings_of octets.now }
{
    let li1 = LI1 as usize;
    let l = load(octets);
    let mut setting = l.setting;
    if octets.len() == OLD_SETTINGS {
        setting[li1] = OLD_LI1;
    }
    setting
}

// A record for a box that has none: it is to be its settings.
fn open_record(b: Setup, kind: u8, seconds: u32, octets: &[u8]) -> Stepped
    ensures { result ≡ step_in b 0 (open_step (rec kind seconds octets.now)) }
{
    if kind != 0 || seconds != 0 || !is_long(octets.len()) {
        return stay(b);
    }
    let o = open(settings_in(octets));
    let a = refuse(o.link, o.refusal);
    accept(b, a, 0)
}

// What a record answers, on a box with or without its settings.
pub fn play_record(b: Setup, kind: u8, seconds: u32, octets: &[u8]) -> Stepped
    ensures { result ≡ stepped_by b (rec kind seconds octets.now) }
{
    if b.ready {
        return play_call(b, kind, seconds, octets);
    }
    open_record(b, kind, seconds, octets)
}
