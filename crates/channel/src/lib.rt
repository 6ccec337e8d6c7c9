// What is under way between two ends, in the order in which it was sent. Knows nothing of links.
#![tactic(auto)]

ghost use Rattle.std.specs.Prelude.{◌≡◌, [], ◌≤◌, length, take, drop};
ghost use Rattle.std.proofs.lemmas.List.Edits.{sets};
ghost use Rattle.channel.specs.Channel.{no_octets, blank, letter_of, held_in, pushed, oldest_of};

use text::least;

// The most octets of a letter: those of the longest aircraft PDU.
pub const ROOM: usize = 115;

// One more than may be under way, so that it shows where there would be too many.
pub const SLOTS: usize = 17;

// A letter goes `up` to the aircraft, or down to the ground; it is of a dialogue by its number, and of a kind; its first n octets are a PDU, the others are 0.
#[derive(Clone, Copy, Drop)]
pub struct Letter {
    pub up: bool,
    pub number: u64,
    pub kind: u8,
    pub n: usize,
    pub octets: [u8; ROOM],
}

// The first n letters are under way, the oldest first.
#[derive(Clone, Copy, Drop)]
pub struct Channel {
    pub n: usize,
    pub letters: [Letter; SLOTS],
}

// A letter; octets that have no room are left out.
pub fn write_letter(up: bool, number: u64, kind: u8, s: &[u8]) -> Letter
    ensures { result ≡ letter_of up number kind s.now }
{
    let n = least(ROOM, s.len());
    let mut octets = [0u8; ROOM];
    octets[..n].copy_from_slice(&s[..n]);
    Letter {
        up,
        number,
        kind,
        n,
        octets,
    }
}

fn blank_letter() -> Letter
    ensures { result ≡ blank }
{
    Letter {
        up: false,
        number: 0,
        kind: 0,
        n: 0,
        octets: [0; ROOM],
    }
}

// Nothing under way.
pub fn empty() -> Channel
    ensures { held_in result ≡ [] }
{
    Channel {
        n: 0,
        letters: [blank_letter(); SLOTS],
    }
}

// How many letters are under way.
pub fn count(c: Channel) -> usize
    ensures { result ≡ length (held_in c) }
{
    least(c.n, SLOTS)
}

// One letter more behind the others; where there is no room, none.
pub fn push(c: Channel, l: Letter) -> Channel
    ensures { held_in result ≡ pushed (held_in c) l }
{
    let n = c.n;
    if SLOTS <= n {
        return c;
    }
    let mut letters = c.letters;
    letters[n] = l;
    Channel { n: n + 1, letters }
}

// The oldest letter; a blank one where there is none.
pub fn oldest(c: Channel) -> Letter
    ensures { result ≡ oldest_of (held_in c) }
{
    if c.n == 0 {
        blank_letter()
    } else {
        c.letters[0]
    }
}

// Without the oldest letter.
pub fn pass(c: Channel) -> Channel
    ensures { held_in result ≡ drop 1 (held_in c) }
{
    let n = least(c.n, SLOTS);
    if n == 0 {
        return c;
    }
    let mut letters = c.letters;
    letters.copy_within(1..n, 0);
    Channel { n: n - 1, letters }
}
