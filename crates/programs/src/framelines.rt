// The frame-line program: the files that are named, or standard input, to standard output; one controller with one channel and the default settings over all of them.
ghost use Rattle.std.specs.Prelude.{◌*◌, ◌≤◌, length};
ghost use Rattle.command_line.specs.Free.{Free};
ghost use Rattle.frame_answers.specs.Stream.{view_of, Good, Becomes, after_piece};

use crate::answering::{Answering, run};
use command_line::ending::{Ending, status};
use command_line::output::Console;
use frame_answers::stream::Stream;
use std::io;
use std::io::Print;
use std::rt::{Env, Files};

// Room for the answers to so many line feeds as a piece has bytes.
const ANSWERS: usize = 327680;

const HELP: &[u8] =
    b"usage: framelines [FILE..]\nAnswers each frame line of the files with the recommended volume, one controller over all of them.\nWithout a file, or where it is -, standard input is read.\n  --help     this text\n  --version  the version, and what it was proved with\nThe exit status is 0, or 1 where a read or a write failed, or 2 at an unknown option.\n";

impl Answering for Stream {
    ghost good = { λ stream. Good stream };

    ghost room = { 327680 };

    fn has_begun(&self) -> bool {
        self.begun.length > 0
    }

    fn answer<R: Print, E: Print>(
        &mut self,
        console: &Console<R, E>,
        piece: &[u8],
        out: &mut [u8],
    ) -> Ending
        requires { Good self.old × (length piece.now * 5 ≤ length out.old) }
        ensures good { Good self.new }
        ensures goes_on { Becomes (after_piece (view_of self.old) piece.now) self.new }
    {
        let fed = self.feed(piece, out);
        *self = fed.stream;
        console.write(&out[..fed.written])
    }
}

// Its exit status. Standard output is the runtime's, and `errors` standard error.
pub fn framelines<R: Env + Files + io::Input + Print, E: Print>(rt: &R, errors: &E) -> u8
    ensures { Free result }
{
    let console = Console {
        rt,
        errors,
        program: b"framelines",
    };
    let mut stream = Stream::new();
    let mut out = [0u8; ANSWERS];
    status(run(&console, HELP, &mut stream, &mut out))
}
