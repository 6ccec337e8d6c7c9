// The answer to one line: its word, the octets of its PDU, and what the task says of them. A line that is not as 01 writes lines is 17.
ghost use Rattle.std.specs.Prelude.{◌≡◌, ◌≤◌, length};
ghost use Rattle.text.specs.Page.{page, Writes};
ghost use Rattle.per.specs.Pdu.{read_pdu};
ghost use Rattle.pdu.specs.DownlinkTable.{air_c};
ghost use Rattle.pdu.specs.UplinkTable.{ground_c};
ghost use Rattle.pdu.specs.Answers.{heard};
ghost use Rattle.pdu_words.specs.LineText.{refused_line, air_text, ground_text, air_read, ground_read, pdu_text, spelled_text, tail_text, line_text};

use crate::lines::Task;
use crate::page::Page;
use crate::{code, tell};
use pdu::downlink::{Air, AirPdu};
use pdu::uplink::Ground;
use pdu_parts::lists::Listed;
use refusals::{Refusal, SCRIPT_LINE};
use text::words::{find, put_refused};
use text_lines::input::shown;

fn say_refused(task: Task, out: &mut Page, at: usize, n: u8) -> usize
    ensures { Writes (page out.old at) (refused_line task n) (page out.new result) }
{
    let a = put_refused(out, at, n);
    match task {
        Task::Code => a,
        Task::Tell => crate::words::put_refusal(out, a, n),
    }
}

fn put_air(task: Task, out: &mut Page, at: usize, kind: Air, list: Listed) -> usize
    ensures { Writes (page out.old at) (air_text task kind list) (page out.new result) }
{
    match task {
        Task::Code => code::put_air(out, at, kind, list),
        Task::Tell => tell::put_air(out, at, kind, list),
    }
}

fn read_air(octets: &[u8]) -> Result<AirPdu, Refusal>
    ensures { heard result ≡ read_pdu air_c octets.now }
{
    pdu_reader::held_air(octets)
}

fn say_air(task: Task, out: &mut Page, at: usize, octets: &[u8]) -> usize
    ensures { Writes (page out.old at) (air_read task (read_pdu air_c octets.now)) (page out.new result) }
{
    match read_air(octets) {
        Ok(pdu) => put_air(task, out, at, pdu.kind, pdu.list),
        Err(refusal) => say_refused(task, out, at, refusal.number()),
    }
}

fn put_ground(task: Task, out: &mut Page, at: usize, g: Ground) -> usize
    ensures { Writes (page out.old at) (ground_text task g) (page out.new result) }
{
    match task {
        Task::Code => code::put_ground(out, at, g),
        Task::Tell => tell::put_ground(out, at, g),
    }
}

fn read_ground(octets: &[u8]) -> Result<Ground, Refusal>
    ensures { heard result ≡ read_pdu ground_c octets.now }
{
    pdu_reader::held_ground(octets)
}

fn say_ground(task: Task, out: &mut Page, at: usize, octets: &[u8]) -> usize
    ensures { Writes (page out.old at) (ground_read task (read_pdu ground_c octets.now)) (page out.new result) }
{
    match read_ground(octets) {
        Ok(g) => put_ground(task, out, at, g),
        Err(refusal) => say_refused(task, out, at, refusal.number()),
    }
}

// The two words, by their numbers in their table.
const AIR: usize = 1;

const GROUND: usize = 2;

fn say_pdu(task: Task, out: &mut Page, at: usize, word: &[u8], octets: &[u8]) -> usize
    ensures { Writes (page out.old at) (pdu_text task word.now octets.now) (page out.new result) }
{
    match find(word, b"airground", &[0, 0, 3, 9]) {
        AIR => say_air(task, out, at, octets),
        GROUND => say_ground(task, out, at, octets),
        _ => say_refused(task, out, at, SCRIPT_LINE),
    }
}

// The octets as text, of which a line has room for 4,096.
fn say_spelled(task: Task, out: &mut Page, at: usize, word: &[u8], s: &[u8]) -> usize
    requires { length s.now ≤ 4096 }
    ensures { Writes (page out.old at) (spelled_text task word.now s.now) (page out.new result) }
{
    let mut octets = [0u8; 2048];
    match text::parse_hex(s, &mut octets) {
        Ok(n) => {
            let m = shown(n, &octets);
            say_pdu(task, out, at, word, &octets[..m])
        }
        Err(_) => say_refused(task, out, at, SCRIPT_LINE),
    }
}

// No octets follow the word, or those after a space.
fn say_tail(task: Task, out: &mut Page, at: usize, word: &[u8], tail: &[u8]) -> usize
    requires { length tail.now ≤ 4096 }
    ensures { Writes (page out.old at) (tail_text task word.now tail.now) (page out.new result) }
{
    if tail.len() == 0 {
        return say_pdu(task, out, at, word, b"");
    }
    if tail.len() == 1 {
        return say_refused(task, out, at, SCRIPT_LINE);
    }
    say_spelled(task, out, at, word, &tail[1..])
}

pub(crate) fn say_line(task: Task, out: &mut Page, at: usize, line: &[u8]) -> usize
    ensures { Writes (page out.old at) (line_text task line.now) (page out.new result) }
{
    if 4096 < line.len() {
        return say_refused(task, out, at, SCRIPT_LINE);
    }
    let e = text::word_end(line);
    say_tail(task, out, at, &line[..e], &line[e..])
}
