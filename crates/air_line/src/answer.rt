// An answer as text, in the words of the air side.
ghost use Rattle.text.specs.Page.{page};
ghost use Rattle.air_line.specs.AnswerText.{Answers};

use air_answer::answer::Said;
use air_answer::sent::ROOM;
use script::answer::{Brief, put_brief};
use text::least;

// An answer to a call with which the octets `came` came.
pub fn put_answer(out: &mut [u8], at: usize, said: Said, came: &[u8]) -> usize
    ensures { Answers said came.now (page out.old at) (page out.new result) }
{
    let acts = said.acts;
    let sent = said.sent;
    let octets = sent.octets;
    let m = least(sent.n, ROOM);
    put_brief(
        out,
        at,
        b" start-rsp data-req end-rsp abort-req ind ind abort  ind peer-abort",
        &[0, 0, 10, 19, 27, 37, 41, 52, 67],
        b"EM3",
        &[0, 3],
        Brief {
            refusal: said.refusal,
            reason: said.reason,
            acts,
        },
        &octets[..m],
        came,
    )
}
