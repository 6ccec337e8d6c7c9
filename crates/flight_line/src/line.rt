// The answer to a line of a flight script.
ghost use Rattle.std.specs.Prelude.{◌≡◌};
ghost use Rattle.text.specs.Page.{page};
ghost use Rattle.script.specs.Fields.{number_after};
ghost use Rattle.world.specs.World.{world_of};
ghost use Rattle.delivery.specs.Deliveries.{Flies};
ghost use Rattle.flight_line.specs.Lines.{LINE-MOST, refused_line, both_ready, rest_of, ground_line, air_line, elapse_line, UnderWay, count_in, carry_line, cut_line, other_line, flight_line};

use crate::air_user::use_air;
use crate::both::{cut_both, elapse_both};
use crate::ground_user::use_ground;
use crate::user::refuse;
use channel::{Channel, count};
use delivery::carry::{Flown, carry};
use refusals::SCRIPT_LINE;
use script::line::number_after;
use text::words::find;
use text::{put_byte, put_text, word_end};
use world::state::World;

// A line with more octets is not readable.
const LONGEST: usize = 4096;

// A refusal, with the end of the line.
fn refuse_line(w: World, out: &mut [u8], at: usize) -> Flown
    ensures { Flies LINE-MOST (refused_line (world_of w)) (page out.old at) (world_of result.world) (page out.new result.at) }
{
    let f = refuse(w, SCRIPT_LINE, out, at);
    Flown {
        at: put_byte(out, f.at, 10),
        world: f.world,
    }
}

#[tactic(auto, unfolding(crate::specs::Lines::both_ready))]
fn both_ready(w: World) -> bool
    ensures { result ≡ both_ready (world_of w) }
{
    w.ground_end.ready && w.air.ready
}

// The line for an end, behind the first word.
fn rest_of(line: &[u8]) -> &[u8]
    ensures { result.now ≡ rest_of line.now }
{
    let e = word_end(line);
    if line.len() <= e {
        return &line[..0];
    }
    &line[e + 1..]
}

fn ground_line(w: World, line: &[u8], out: &mut [u8], at: usize) -> Flown
    ensures { Flies LINE-MOST (ground_line (world_of w) line.now) (page out.old at) (world_of result.world) (page out.new result.at) }
{
    let a = put_text(out, at, b"ground ");
    let f = use_ground(w, rest_of(line), out, a);
    Flown {
        at: put_byte(out, f.at, 10),
        world: f.world,
    }
}

fn air_line(w: World, line: &[u8], out: &mut [u8], at: usize) -> Flown
    ensures { Flies LINE-MOST (air_line (world_of w) line.now) (page out.old at) (world_of result.world) (page out.new result.at) }
{
    let a = put_text(out, at, b"air ");
    let f = use_air(w, rest_of(line), out, a);
    Flown {
        at: put_byte(out, f.at, 10),
        world: f.world,
    }
}

fn elapse_line(w: World, tail: &[u8], out: &mut [u8], at: usize) -> Flown
    ensures { Flies LINE-MOST (elapse_line (world_of w) (number_after tail.now)) (page out.old at) (world_of result.world) (page out.new result.at) }
{
    let Some(n) = number_after(tail) else {
        return refuse_line(w, out, at);
    };
    if !both_ready(w) {
        return refuse_line(w, out, at);
    }
    let f = elapse_both(w, n, out, at);
    Flown {
        at: put_byte(out, f.at, 10),
        world: f.world,
    }
}

// Of how many letters a line speaks, where so many are under way; 0 where it is refused.
#[tactic(auto, unfolding(crate::specs::Lines::count_in, crate::specs::Lines::count_of))]
fn count_in(have: u64, tail: &[u8]) -> u64
    ensures { result ≡ count_in have tail.now }
{
    if tail.len() == 0 {
        return have;
    }
    match number_after(tail) {
        Some(n) if n as u64 <= have => n as u64,
        _ => 0,
    }
}

fn under_way(c: Channel) -> u64
    ensures { UnderWay c result }
{
    count(c) as u64
}

// Letters come, or are thrown away.
fn carry_line(w: World, number: u64, tail: &[u8], hear: bool, out: &mut [u8], at: usize) -> Flown
    ensures { Flies LINE-MOST (carry_line (world_of w) number tail.now hear) (page out.old at) (world_of result.world) (page out.new result.at) }
{
    if !both_ready(w) {
        return refuse_line(w, out, at);
    }
    let k = count_in(under_way(w.held), tail);
    if k == 0 {
        return refuse_line(w, out, at);
    }
    let a = put_text(out, at, b"ok\n");
    carry(w, number, k, hear, out, a)
}

fn cut_line(w: World, number: u64, tail: &[u8], out: &mut [u8], at: usize) -> Flown
    ensures { Flies LINE-MOST (cut_line (world_of w) number tail.now) (page out.old at) (world_of result.world) (page out.new result.at) }
{
    if tail.len() != 0 {
        return refuse_line(w, out, at);
    }
    if !both_ready(w) {
        return refuse_line(w, out, at);
    }
    let f = cut_both(w, out, at);
    let e = put_byte(out, f.at, 10);
    carry(f.world, number, under_way(f.world.held), false, out, e)
}

// A line for both ends or the channel, by the number of its word.
fn other_line(w: World, number: u64, word: usize, tail: &[u8], out: &mut [u8], at: usize) -> Flown
    ensures { Flies LINE-MOST (other_line (world_of w) number word tail.now) (page out.old at) (world_of result.world) (page out.new result.at) }
{
    match word {
        3 => elapse_line(w, tail, out, at),
        4 => carry_line(w, number, tail, true, out, at),
        5 => carry_line(w, number, tail, false, out, at),
        6 => cut_line(w, number, tail, out, at),
        _ => refuse_line(w, out, at),
    }
}

// The answer to a line with a number, and the lines for what came or was lost.
pub fn fly_line(w: World, number: u64, line: &[u8], out: &mut [u8], at: usize) -> Flown
    ensures { Flies LINE-MOST (flight_line (world_of w) number line.now) (page out.old at) (world_of result.world) (page out.new result.at) }
{
    if LONGEST < line.len() {
        return refuse_line(w, out, at);
    }
    let e = word_end(line);
    let word = find(
        &line[..e],
        b"groundairelapsedeliverlosecut",
        &[0, 0, 6, 9, 15, 22, 26, 29],
    );
    match word {
        1 => ground_line(w, line, out, at),
        2 => air_line(w, line, out, at),
        _ => other_line(w, number, word, &line[e..], out, at),
    }
}
