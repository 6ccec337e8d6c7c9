// The numbers of the timers into lent octets.
ghost use Rattle.std.specs.Prelude.{◌≡◌, ◌+◌, ◌≤◌, length};
ghost use Rattle.std.proofs.lemmas.List.Edits.{sets};
ghost use Rattle.octets.specs.Octets.{quads};

use link::moves::TIMERS;
use octets::put_word;

pub(crate) fn put_words(out: &mut [u8], at: usize, ws: [u32; TIMERS])
    requires { at + 40 ≤ length out.old }
    ensures { out.new ≡ sets out.old at (quads ws) }
{
    for (i, w) in ws.iter().enumerate() {
        put_word(out, at + i * 4, *w);
    }
}
