// An answer as text, in the words of the ground.
ghost use Rattle.text.specs.Page.{page};
ghost use Rattle.bench_line.specs.AnswerText.{Answers};

use ground_answer::answer::Said;
use ground_answer::sent::SENT_MOST;
use script::answer::{Brief, put_brief};
use text::least;

// An answer to a call with which the octets `came` came.
pub fn put_answer(out: &mut [u8], at: usize, said: Said, came: &[u8]) -> usize
    ensures { Answers said came.now (page out.old at) (page out.new result) }
{
    let acts = said.acts;
    let sent = said.sent;
    let octets = sent.octets;
    let m = least(sent.n, SENT_MOST);
    put_brief(
        out,
        at,
        b" start-req data-req end-req abort-req ind ind abort  ind peer-abort late",
        &[0, 0, 10, 19, 27, 37, 41, 52, 67, 72],
        b"DC1DC2EC1EC2PC1PC2PC3EM1EM2LI1",
        &[0, 3, 6, 9, 12, 15, 18, 21, 24, 27, 30],
        Brief {
            refusal: said.refusal,
            reason: said.reason,
            acts,
        },
        &octets[..m],
        came,
    )
}
