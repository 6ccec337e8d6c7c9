// One call on the record that a host keeps, and a new record.
ghost use Rattle.std.specs.Prelude.{◌≡◌};
ghost use Rattle.host_record.specs.Hosting.{hosted, Hosts, Serves, settings_of, made, Makes};

use crate::answer::{ANSWER, save_answer};
use crate::record::{RECORD, load, save, save_rest};
use ground::call::{Call, answer};
use ground_answer::answer::{Said, refuse};
use ground_answer::fresh::open;
use host_numbers::copy::padded;
use link::moves::TIMERS;
use refusals::{BAD_RECORD, BAD_SETTING, NO_ROOM};

// The record is read and checked on each call, and written back only where the call is accepted and its answer has room. The flight log is played by this function
// too: so `answer` is called from one place, and compiled into it.
pub fn serve(link: &mut [u8], call: Call, octets: &[u8], out: &mut [u8]) -> Said
    ensures { Serves call octets.now link.old out.old result link.new out.new }
{
    if link.len() != RECORD {
        return refuse(load(link), BAD_RECORD).said;
    }
    let a = answer(load(link), call, octets);
    if a.said.refusal != 0 {
        return a.said;
    }
    if out.len() < ANSWER {
        return refuse(a.link, NO_ROOM).said;
    }
    save_rest(a.link, link);
    save_answer(a.said, out);
    a.said
}

pub fn step(link: &mut [u8], call: Call, octets: &[u8], out: &mut [u8]) -> u8
    ensures { Hosts (hosted call octets.now link.old out.old) result link.new out.new }
{
    serve(link, call, octets, out).refusal
}

// The settings in an array; missing ones count as 0.
fn settings_of(f: &[u32]) -> [u32; TIMERS]
    ensures { result ≡ settings_of f.now }
{
    padded(f)
}

pub fn make(settings: &[u32], link: &mut [u8]) -> u8
    ensures { Makes (made settings.now link.old) result link.new }
{
    if settings.len() != TIMERS {
        return BAD_SETTING;
    }
    let o = open(settings_of(settings));
    if o.refusal != 0 {
        return o.refusal;
    }
    if link.len() != RECORD {
        return NO_ROOM;
    }
    save(o.link, link);
    0
}
