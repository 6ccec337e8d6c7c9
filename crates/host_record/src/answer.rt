// What a call says, in 31 octets. The refusal is not among them: a refused call writes nothing.
ghost use Rattle.std.specs.Prelude.{◌≡◌, ◌++◌, replicate};
ghost use Rattle.std.proofs.lemmas.List.Edits.{sets};
ghost use Rattle.ground_answer.specs.Sent.{SENT-MOST};
ghost use Rattle.host_record.specs.AnswerLayout.{at_most, head_of, sent_octets, answer_octets};

use ground_answer::answer::Said;
use ground_answer::sent::SENT_MOST;
use host_numbers::copy::copy_into;
use octets::octets_of;

pub const ANSWER: usize = 31;

// No list has more than `most`, so nothing is lost.
fn count(n: usize, most: u8) -> u8
    ensures { result ≡ at_most most n }
{
    n.min(most as usize) as u8
}

// What stands before the octets that are sent, and zeros.
fn head_octets(s: Said) -> [u8; ANSWER]
    ensures { result ≡ head_of s ++ replicate SENT-MOST 0 }
{
    let mut f = [0u8; ANSWER];
    f[..4].copy_from_slice(&octets_of(s.reason));
    f[4] = count(s.acts.n, 8);
    f[5..13].copy_from_slice(&s.acts.list);
    f[13] = count(s.sent.n, SENT_MOST as u8);
    f
}

fn with_sent(mut f: [u8; ANSWER], o: [u8; SENT_MOST]) -> [u8; ANSWER]
    ensures { result ≡ sets f 14 (sent_octets o) }
{
    f[14..].copy_from_slice(&o);
    f
}

fn answer_octets(s: Said) -> [u8; ANSWER]
    ensures { result ≡ answer_octets s }
{
    with_sent(head_octets(s), s.sent.octets)
}

pub fn save_answer(s: Said, out: &mut [u8])
    ensures { out.new ≡ sets out.old 0 (answer_octets s) }
{
    copy_into(&answer_octets(s), out);
}
