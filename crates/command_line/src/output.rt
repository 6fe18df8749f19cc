// Writing to standard output, and saying what failed. What the system does no contract can say, so of a write it is told how it may end.
ghost use Rattle.std.specs.Prelude.{◌≡◌, ◌≤◌, length};
ghost use Rattle.command_line.specs.declared.ending.Failure.TheVariants.{Failed, Misused};
ghost use Rattle.command_line.specs.Ending.{DoneOrFailed, ending_of};

use crate::ending::{Ending, Failure};
use std::fs::{File, OpenFile};
use std::io::{Error, ErrorKind, Print, Result, Write};
use std::rt::Files;
use std::str;

// What a program works with: the runtime, whose standard output it writes, standard error, and its own name.
#[derive(Drop)]
pub struct Console<'a, R, E> {
    pub rt: &'a R,
    pub errors: &'a E,
    pub program: &'a [u8],
}

// Room for the words of an error.
const WORDS: usize = 256;

// The system's words for an error. std puts the error's number behind them, which is left out.
fn words<'a>(error: &Error, space: &'a mut [u8]) -> &'a [u8]
    ensures { length result.now ≤ length space.old }
{
    let room = space.len();
    let mut rest: &mut [u8] = &mut space[..];
    let _ = write!(rest, "{error}");
    let written = room.saturating_sub(rest.len());
    let end = match str::from_utf8(&space[..written]) {
        Ok(text) => text.rfind(" (os error ").unwrap_or(written),
        Err(_) => written,
    };
    &space[..end]
}

impl<R, E: Print> Console<'_, R, E> {
    // Words on standard error, behind the program's name. Where that fails there is nobody left to tell.
    fn tell(&self, parts: &[&[u8]]) {
        let _ = self.errors.write_all(self.program);
        for part in parts {
            let _ = self.errors.write_all(part);
        }
    }

    // What failed, and why, is told.
    pub fn failed(&self, what: &[u8], error: &Error) -> Failure
        ensures { result ≡ Failed }
    {
        let mut space = [0u8; WORDS];
        let why = words(error, &mut space);
        self.tell(&[b": ", what, b": ", why, b"\n"]);
        Failure::Failed
    }

    // An option that there is not is told.
    pub fn misused(&self, option: &[u8]) -> Ending
        ensures { result ≡ Err Misused }
    {
        self.tell(&[b": unknown option ", option, b"; see --help\n"]);
        Err(Failure::Misused)
    }

    // How a write or a close of standard output ends the program. A closed pipe is quiet: whoever read from it has read what he wanted.
    fn ended(&self, written: Result<()>) -> Ending
        ensures { result ≡ ending_of written }
    {
        match written {
            Ok(()) => Ok(()),
            Err(error) if error.kind() == ErrorKind::BrokenPipe => Err(Failure::Failed),
            Err(error) => Err(self.failed(b"standard output", &error)),
        }
    }
}

impl<R: Print, E: Print> Console<'_, R, E> {
    pub fn write(&self, bytes: &[u8]) -> Ending
        ensures { DoneOrFailed result }
    {
        self.ended(self.rt.write_all(bytes))
    }
}

// Standard output by a name that can be opened.
const OUTPUT: &str = "/proc/self/fd/1";

// Some file systems tell of a full disk only when a file is closed, and std closes standard output without a word. So it is asked to hand a file's bytes to the disk, which tells as much;
// what cannot be asked so has nothing to tell.
fn settled<R: Files>(rt: &R) -> Result<()> {
    if !rt.metadata(OUTPUT).is_ok_and(|found| found.is_file()) {
        return Ok(());
    }
    let mut how = File::options();
    how.write(true);
    let Ok(file) = how.open(rt, OUTPUT) else {
        return Ok(());
    };
    file.sync_data()
}

impl<R: Files, E: Print> Console<'_, R, E> {
    pub fn close(&self) -> Ending
        ensures { DoneOrFailed result }
    {
        match settled(self.rt) {
            Err(error) if error.kind() == ErrorKind::InvalidInput => Ok(()),
            closed => self.ended(closed),
        }
    }
}
