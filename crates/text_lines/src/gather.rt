// The gatherer of lines: what a piece has up to and with its first line feed.
ghost use Rattle.text.specs.Page.{page};
ghost use Rattle.text_lines.specs.Lines.{Gathers};

use text::{least, put_text};

// The piece is used up to `next`, `len` octets of the line are kept, and the line has `ended` or goes on in the next piece.
#[derive(Drop)]
pub struct Gathered {
    pub next: usize,
    pub len: usize,
    pub ended: bool,
}

// Takes the piece from `from` on into `line`, where `len` octets are kept. What has no room is dropped.
pub fn gather(piece: &[u8], from: usize, len: usize, line: &mut [u8]) -> Gathered
    ensures { Gathers piece.now from (page line.old len) result (page line.new result.len) }
{
    let rest = &piece[least(from, piece.len())..];
    match rest.iter().position(|b| *b == b'\n') {
        Some(k) => Gathered {
            next: from + k + 1,
            len: put_text(line, len, &rest[..k]),
            ended: true,
        },
        None => Gathered {
            next: from + rest.len(),
            len: put_text(line, len, rest),
            ended: false,
        },
    }
}
