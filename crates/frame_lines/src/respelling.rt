// The base spellings of a stream of lines that comes in pieces of any size. Memory is constant: the beginning of a line that a piece's end has cut.
ghost use Rattle.std.specs.Prelude.{◌≡◌, ◌≤◌, length};
ghost use Rattle.frame_lines.specs.Feeds.{kept, GoodBeginning};
ghost use Rattle.frame_lines.specs.Respelled.{longest_respelling, text_of_line, AnswersIn, WholeAs, FedAs, finished_text};

use crate::answer::put_reply;
use crate::lines::{Begun, next_feed};
use crate::spelling::{Unspelled, respell};
use numbers::refusal::Refusal;

// The most bytes that an answer has, its line feed among them.
pub const LONGEST_RESPELLING: usize = 2001;

// What a piece leads to: the beginning of a line that is kept, how much of the piece is used, and how many bytes of answers were put.
#[derive(Clone, Copy)]
pub struct Fed {
    pub begun: Begun,
    pub used: usize,
    pub written: usize,
}

// What the lines within a piece lead to: up to where it is used, and how many bytes were put.
#[derive(Clone, Copy)]
struct Whole {
    used: usize,
    written: usize,
}

// The answer to a line.
fn answer_line(line: &[u8], out: &mut [u8]) -> usize
    requires { longest_respelling ≤ length out.old }
    ensures { AnswersIn (text_of_line line.now) out.old out.new result }
{
    match respell(line, out) {
        Ok(n) => {
            out[n] = b'\n';
            n + 1
        }
        Err(Unspelled::Malformed) => put_reply(out, 0, Err(Refusal::FrameLine)),
        // never: there is room for every line that is not too long
        Err(Unspelled::NoRoom) => 0,
    }
}

// The answers to the lines that end in a piece, where none began before it.
fn whole_lines(piece: &[u8], out: &mut [u8]) -> Whole
    ensures { WholeAs piece.now out.old out.new result }
{
    let mut used = 0;
    let mut written = 0;
    // From line to line, as long as there is room: no index is counted.
    while LONGEST_RESPELLING <= out.len() - written {
        let Some(end) = next_feed(piece, used) else {
            return Whole { used, written };
        };
        written += answer_line(&piece[used..end], &mut out[written..]);
        used = end + 1;
    }
    Whole { used, written }
}

// The lines that end in a piece, as long as `out` has room for the longest answer, are answered at its beginning; of a line that began before, the end alone is used. The beginning of a line is kept.
pub fn feed(begun: Begun, piece: &[u8], out: &mut [u8]) -> Fed
    requires { GoodBeginning begun }
    ensures { FedAs (kept begun) piece.now out.old out.new result }
{
    let room = out.len();
    if room < LONGEST_RESPELLING {
        return Fed {
            begun,
            used: 0,
            written: 0,
        };
    }
    if begun.length == 0 {
        let Whole { used, written } = whole_lines(piece, out);
        if room - written < LONGEST_RESPELLING {
            return Fed {
                begun,
                used,
                written,
            };
        }
        return Fed {
            begun: begun.append(&piece[used..]),
            used: piece.len(),
            written,
        };
    }
    let Some(end) = next_feed(piece, 0) else {
        return Fed {
            begun: begun.append(piece),
            used: piece.len(),
            written: 0,
        };
    };
    let line = begun.append(&piece[..end]);
    let written = answer_line(line.text(), out);
    Fed {
        begun: line.cleared(),
        used: end + 1,
        written,
    }
}

// The answer to a last line that lacks its line feed, or nothing; nothing too where there is no room for the longest answer.
pub fn finish(begun: Begun, out: &mut [u8]) -> usize
    requires { GoodBeginning begun }
    ensures { AnswersIn (finished_text (kept begun) out.old) out.old out.new result }
{
    if begun.length == 0 {
        return 0;
    }
    if out.len() < LONGEST_RESPELLING {
        return 0;
    }
    answer_line(begun.text(), out)
}
