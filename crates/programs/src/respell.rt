// One spelling of frame lines: the files that are named, or standard input, to standard output, each line answered with its base spelling or with its refusal.
ghost use Rattle.std.specs.Prelude.{◌≡◌, ◌++◌, ◌≤◌, length, IsOk};
ghost use Rattle.command_line.specs.Free.{Free};
ghost use Rattle.frame_lines.specs.Stream.{cut, begun};
ghost use Rattle.frame_lines.specs.Feeds.{kept, GoodBeginning};
ghost use Rattle.frame_lines.specs.Respelled.{longest_respelling};

use crate::answering::{Answering, run};
use command_line::ending::{Ending, status};
use command_line::output::Console;
use frame_lines::lines::Begun;
use frame_lines::respelling::{LONGEST_RESPELLING, feed};
use std::io;
use std::io::Print;
use std::rt::{Env, Files};

// Room for the answers to a piece of usual lines; more is written in parts.
const ANSWERS: usize = 131072;

const HELP: &[u8] =
    b"usage: respell [FILE..]\nWrites each frame line of the files in its base spelling: capitals, several blanks and blanks at the ends are forgiven.\nWithout a file, or where it is -, standard input is read.\n  --help     this text\n  --version  the version, and what it was proved with\nThe exit status is 0, or 1 where a read or a write failed, or 2 at an unknown option.\n";

// What is kept of a line that has begun.
impl Answering for Begun {
    ghost good = { λ line. GoodBeginning line };

    ghost room = { longest_respelling };

    fn has_begun(&self) -> bool {
        self.length > 0
    }

    // What was put is written where another answer may have no room, and at the end.
    fn answer<R: Print, E: Print>(
        &mut self,
        console: &Console<R, E>,
        piece: &[u8],
        out: &mut [u8],
    ) -> Ending
        requires { GoodBeginning self.old × (longest_respelling ≤ length out.old) }
        ensures good { GoodBeginning self.new }
        ensures goes_on { IsOk result → kept self.new ≡ cut (begun (kept self.old ++ piece.now)) }
    {
        let mut rest = piece;
        let mut written = 0;
        // As long as something is left: no index is counted.
        while !rest.is_empty() {
            let fed = feed(*self, rest, &mut out[written..]);
            *self = fed.begun;
            rest = &rest[fed.used..];
            written += fed.written;
            if out.len() - written < LONGEST_RESPELLING {
                console.write(&out[..written])?;
                written = 0;
            }
        }
        console.write(&out[..written])
    }
}

// Its exit status. Standard output is the runtime's, and `errors` standard error.
pub fn respell<R: Env + Files + io::Input + Print, E: Print>(rt: &R, errors: &E) -> u8
    ensures { Free result }
{
    let console = Console {
        rt,
        errors,
        program: b"respell",
    };
    let mut line = Begun::new();
    let mut out = [0u8; ANSWERS];
    status(run(&console, HELP, &mut line, &mut out))
}
