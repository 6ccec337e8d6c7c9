// Numbers of two and of four octets, the most significant octet first, and runs of octets. What is not there reads as 0, and what has no room is dropped.
#![tactic(auto)]

ghost use Rattle.std.specs.Prelude.{◌≡◌, ◌+◌, ◌-◌, ◌*◌, ◌≤◌, length, get_or, set};
ghost use Rattle.std.proofs.lemmas.List.Edits.{sets};
ghost use Rattle.octets.specs.Octets.{pair, pair_at, quad, word_at, zeros};

pub fn octet(s: &[u8], i: usize) -> u8
    ensures { result ≡ get_or s.now i 0 }
{
    s.get(i).copied().unwrap_or(0)
}

// Where the octets may end before the number does.
fn read_cut(s: &[u8], at: usize) -> u32
    ensures { result ≡ word_at s.now at }
{
    if s.len() <= at {
        return 0;
    }
    u32::from_be_bytes([
        octet(s, at),
        octet(s, at + 1),
        octet(s, at + 2),
        octet(s, at + 3),
    ])
}

pub fn read_word(s: &[u8], at: usize) -> u32
    ensures { result ≡ word_at s.now at }
{
    if at < s.len() && 4 <= s.len() - at {
        return u32::from_be_bytes([s[at], s[at + 1], s[at + 2], s[at + 3]]);
    }
    read_cut(s, at)
}

pub fn read_pair(s: &[u8], at: usize) -> u16
    ensures { result ≡ pair_at s.now at }
{
    if s.len() <= at {
        return 0;
    }
    u16::from_be_bytes([octet(s, at), octet(s, at + 1)])
}

pub fn octets_of(w: u32) -> [u8; 4]
    ensures { result ≡ quad w }
{
    w.to_be_bytes()
}

fn put_octet(out: &mut [u8], i: usize, o: u8)
    ensures { out.new ≡ set out.old i o }
{
    if i < out.len() {
        out[i] = o;
    }
}

pub fn put_octets(out: &mut [u8], at: usize, s: &[u8])
    ensures { out.new ≡ sets out.old at s.now }
{
    if out.len() <= at {
        return;
    }
    // Octet by octet: as one copy between two lent slices it would need C's memmove.
    for i in 0..s.len() {
        put_octet(out, at + i, s[i]);
    }
}

pub fn put_word(out: &mut [u8], at: usize, w: u32)
    ensures { out.new ≡ sets out.old at (quad w) }
{
    // As many octets as are known beforehand are copied faster.
    if at < out.len() && 4 <= out.len() - at {
        out[at..at + 4].copy_from_slice(&octets_of(w));
    } else {
        put_octets(out, at, &octets_of(w));
    }
}

pub fn put_pair(out: &mut [u8], at: usize, n: u16)
    ensures { out.new ≡ sets out.old at (pair n) }
{
    put_octets(out, at, &n.to_be_bytes());
}

// From a place up to another.
pub fn put_zeros(out: &mut [u8], from: usize, to: usize)
    ensures { out.new ≡ sets out.old from (zeros (to - from)) }
{
    let end = to.min(out.len());
    if from < end {
        out[from..end].fill(0);
    }
}
