// What the programs share: what is read, piece by piece, and answered.
ghost use Rattle.std.specs.Prelude.{◌<◌, ◌≤◌, ℕ, length, IfOk, IfSome};
ghost use Rattle.command_line.specs.Free.{Free};
ghost use Rattle.command_line.specs.Input.{IsPrefixLen};

use command_line::ending::{Ending, Failure};
use command_line::input::{Input, Reading};
use command_line::output::Console;
use command_line::start::options;
use std::io;
use std::io::Print;
use std::rt::{Env, Files};

// So much is read at once, if so much is there.
const PIECE: usize = 65536;

// A program's way with lines: what it keeps from piece to piece, and how it answers them.
pub trait Answering {
    // What it keeps is in order.
    ghost good: { Self → Type 0 };

    // So much room is enough for the answers to any piece.
    ghost room: { ℕ };

    // Whether a line has begun that has not ended.
    fn has_begun(&self) -> bool;

    // Answers all lines that end in a piece. A write that fails ends the program.
    fn answer<R: Print, E: Print>(
        &mut self,
        console: &Console<R, E>,
        piece: &[u8],
        out: &mut [u8],
    ) -> Ending
        requires good { good self.old }
        requires fits { length piece.now ≤ PIECE }
        requires room { room ≤ length out.old }
        ensures { good self.new };
}

// The end of a file ends its last line, whether or not that has its line feed: so one is read where a line has begun.
fn last_feed(begun: bool, piece: &mut [u8]) -> usize
    requires { 0 < length piece.old }
    ensures { IsPrefixLen result piece.new }
{
    if !begun {
        return 0;
    }
    piece[0] = b'\n';
    1
}

// One reading: how many bytes it brought, or nothing at the end of all. Where it fails, a line that has not ended stays unanswered.
fn next_piece<R: Env + Files + io::Input + Print, E: Print>(
    console: &Console<R, E>,
    input: &mut Input<R::File>,
    begun: bool,
    piece: &mut [u8],
) -> Result<Option<usize>, Failure>
    requires { 0 < length piece.old }
    ensures { IfOk result (λ next. IfSome next (λ count. IsPrefixLen count piece.new)) }
{
    match input.read(console, piece)? {
        Reading::Bytes(count) => Ok(Some(count)),
        Reading::FileEnd => Ok(Some(last_feed(begun, piece))),
        Reading::Argument => Ok(Some(0)),
        Reading::End => Ok(None),
    }
}

// A loop must be shown to end: no input has so many pieces.
fn answer_all<R: Env + Files + io::Input + Print, E: Print, A: Answering>(
    console: &Console<R, E>,
    answering: &mut A,
    out: &mut [u8],
) -> Ending
    requires good { A.good answering.old }
    requires room { A.room ≤ length out.old }
{
    let mut piece = [0u8; PIECE];
    let mut input = Input::<R::File>::new();
    for _ in 0..u64::MAX {
        let begun = answering.has_begun();
        let Some(count) = next_piece(console, &mut input, begun, &mut piece)? else {
            return console.close();
        };
        // an argument that was looked at, and the end of a file where no line has begun, bring nothing
        if count > 0 {
            answering.answer(console, &piece[..count], out)?;
        }
    }
    Err(Failure::Failed)
}

// How the program ends: by an option, or when all is answered.
pub fn run<R: Env + Files + io::Input + Print, E: Print, A: Answering>(
    console: &Console<R, E>,
    help: &[u8],
    answering: &mut A,
    out: &mut [u8],
) -> Ending
    requires good { A.good answering.old }
    requires room { A.room ≤ length out.old }
    ensures { Free result }
{
    match options(console, help) {
        Some(ending) => ending,
        None => answer_all(console, answering, out),
    }
}
