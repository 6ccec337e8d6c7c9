// The answers of both ends as text, which is never long where no more octets came than a letter has.
ghost use Rattle.text.specs.Page.{page};
ghost use Rattle.bench_line.specs.AnswerText.{answer_text as ground_text};
ghost use Rattle.air_line.specs.AnswerText.{answer_text as air_text};
ghost use Rattle.delivery.specs.Hearing.{Tells};

pub fn put_ground(
    out: &mut [u8],
    at: usize,
    said: ground_answer::answer::Said,
    came: &[u8],
) -> usize
    ensures { Tells (ground_text said came.now) came.now (page out.old at) (page out.new result) }
{
    bench_line::answer::put_answer(out, at, said, came)
}

pub fn put_air(out: &mut [u8], at: usize, said: air_answer::answer::Said, came: &[u8]) -> usize
    ensures { Tells (air_text said came.now) came.now (page out.old at) (page out.new result) }
{
    air_line::answer::put_answer(out, at, said, came)
}
