// The end of a flight: the states of both ends, and how much is under way.
ghost use Rattle.std.specs.Prelude.{◌≡◌, ◌++◌, ◌+◌, ◌≤◌};
ghost use Rattle.text.specs.Letters.{ascii};
ghost use Rattle.text.specs.Text.{pick};
ghost use Rattle.text.specs.Page.{page, Writes};
ghost use Rattle.text.specs.Words.{words_of};
ghost use Rattle.world.specs.World.{world_of};
ghost use Rattle.flight_bench.specs.Endings.{states_of, ground_states, air_states, states_text};

use channel::count;
use text::words::put_word;
use text::{put_byte, put_decimal, put_text};
use world::state::World;

// Where the words of each table of states begin.
const GROUND_BEGINS: [usize; 26] = [
    0, 8, 17, 27, 34, 34, 42, 53, 63, 63, 63, 71, 88, 99, 109, 119, 127, 144, 155, 165, 175, 183,
    193, 203, 203, 203,
];

const AIR_BEGINS: [usize; 26] = [
    0, 8, 17, 27, 27, 27, 35, 46, 56, 56, 56, 64, 75, 85, 103, 103, 111, 122, 132, 150, 150, 158,
    168, 178, 188, 188,
];

// The place of a state's word.
fn place(base: usize, state: u8) -> usize
    requires { base ≤ 20 }
    ensures { result ≡ base + state }
{
    base + state as usize
}

// The states of the modules, LI first; each module has five words, by the numbers of its states.
fn put_modules(out: &mut [u8], at: usize, states: [u8; 5], words: &[u8], begins: &[usize]) -> usize
    ensures { Writes (page out.old at) (states_of (words_of words.now begins.now) states) (page out.new result) }
{
    let li = place(0, states[4]);
    let dc = place(5, states[0]);
    let ec = place(10, states[1]);
    let pc = place(15, states[2]);
    let em = place(20, states[3]);
    let a = put_word(out, at, words, begins, li);
    let b = put_word(out, a, words, begins, dc);
    let c = put_word(out, b, words, begins, ec);
    let d = put_word(out, c, words, begins, pc);
    let e = put_word(out, d, words, begins, em);
    put_byte(out, e, 10)
}

// The states of an end that has its settings, under the names of its tables.
fn put_end(
    out: &mut [u8],
    at: usize,
    name: &[u8],
    ready: bool,
    states: [u8; 5],
    words: &[u8],
    begins: &[usize],
) -> usize
    ensures { Writes (page out.old at) (name.now ++ pick ready (states_of (words_of words.now begins.now) states) (ascii " not set\n")) (page out.new result) }
{
    let a = put_text(out, at, name);
    if ready {
        put_modules(out, a, states, words, begins)
    } else {
        put_text(out, a, b" not set\n")
    }
}

fn put_ground(out: &mut [u8], at: usize, s: bench::reply::Setup) -> usize
    ensures { Writes (page out.old at) (ground_states s) (page out.new result) }
{
    put_end(
        out,
        at,
        b"ground",
        s.ready,
        s.link.at,
        b" LI-IDLE LI-START LI-ACTIVE LI-END DC-IDLE DC-PENDING DC-ACTIVE EC-IDLE EC-START-PENDING EC-PENDING EC-ACTIVE EC-CANCEL PC-IDLE PC-START-PENDING PC-PENDING PC-ACTIVE PC-CANCEL EM-IDLE EM-ACTIVE EM-MODIFY",
        &GROUND_BEGINS,
    )
}

fn put_air(out: &mut [u8], at: usize, s: air_bench::reply::Setup) -> usize
    ensures { Writes (page out.old at) (air_states s) (page out.new result) }
{
    put_end(
        out,
        at,
        b"air",
        s.ready,
        s.link.at,
        b" LI-IDLE LI-START LI-ACTIVE DC-IDLE DC-PENDING DC-ACTIVE EC-IDLE EC-PENDING EC-ACTIVE EC-ACTIVE-PENDING PC-IDLE PC-PENDING PC-ACTIVE PC-ACTIVE-PENDING EM-IDLE EM-ACTIVE EM-MODIFY EM-CANCEL",
        &AIR_BEGINS,
    )
}

pub fn put_states(out: &mut [u8], at: usize, w: World) -> usize
    ensures { Writes (page out.old at) (states_text (world_of w)) (page out.new result) }
{
    let a = put_ground(out, at, w.ground_end);
    let b = put_air(out, a, w.air);
    let c = put_text(out, b, b"under way ");
    let d = put_decimal(out, c, count(w.held) as u64);
    put_byte(out, d, 10)
}
