// What the arguments name, read in pieces: file after file, `-` for standard input, and that alone where they name nothing.
ghost use Rattle.std.specs.Prelude.{◌≡◌, IfOk};
ghost use Rattle.std.specs.Io.{ReadsAtMost};
ghost use Rattle.command_line.specs.Input.{IsPrefixLen, count_of, fresh};

use crate::ending::Failure;
use crate::output::Console;
use std::env::FillError;
use std::fs::File;
use std::io::{Error, Print, Read};
use std::rt::{Env, Files};
use std::{io, str};

// The longest name that the system takes is a byte shorter.
pub(crate) const PATH_MAX: usize = 4096;

// The system's numbers for a name that is too long, and for bytes that are no text.
const ENAMETOOLONG: i32 = 36;

const EILSEQ: i32 = 84;

#[derive(Drop)]
pub enum Source<F> {
    StandardInput,
    File(F),
}

// The argument that was looked at last, and what is read now.
#[derive(Drop)]
pub struct Input<F> {
    pub at: usize,
    pub dashes: bool,
    pub named: bool,
    pub source: Option<Source<F>>,
}

// What a reading brought.
#[derive(Clone, Copy)]
pub enum Reading {
    // So many bytes stand at the beginning of the piece.
    Bytes(usize),
    // Another argument was looked at.
    Argument,
    // A file has ended, and the next one is looked for.
    FileEnd,
    // All that the arguments name is read.
    End,
}

// Standard input is read until the piece is full, the input ends or a read fails; so many bytes stand at the beginning of the piece.
// The loop is written out, since std's reads up to an end need the heap or don't say how much came.
pub fn read_full<R: io::Input>(rt: &R, piece: &mut [u8]) -> usize
    ensures { IsPrefixLen result piece.new }
{
    let mut reader = rt.reader();
    let mut held = 0;
    while held < piece.len() {
        let n = reader.read(&mut piece[held..]).unwrap_or(0);
        if n == 0 {
            break;
        }
        held += n;
    }
    held
}

// std opens no file whose name is not text.
fn opened<R: Files>(rt: &R, name: &[u8]) -> io::Result<R::File> {
    match str::from_utf8(name) {
        Ok(path) => File::open(rt, path),
        Err(_) => Err(Error::from_raw_os_error(EILSEQ)),
    }
}

impl<F: Read + Drop> Source<F> {
    // One read, so that whoever waits for an answer before sending more gets it.
    fn read<R: io::Input>(&mut self, rt: &R, piece: &mut [u8]) -> io::Result<usize>
        ensures { ReadsAtMost result piece.new }
    {
        match self {
            Source::StandardInput => rt.reader().read(piece),
            Source::File(file) => file.read(piece),
        }
    }
}

impl<F: Read + Drop> Input<F> {
    // No argument was looked at yet, but the program's own name.
    pub fn new() -> Input<F>
        ensures { result ≡ fresh }
    {
        Input {
            at: 0,
            dashes: false,
            named: false,
            source: None,
        }
    }

    // The argument at this place is read.
    fn reads(&mut self, at: usize, source: Source<F>) -> Reading
        ensures { count_of result ≡ 0 }
    {
        self.at = at;
        self.named = true;
        self.source = Some(source);
        Reading::Argument
    }

    // No argument is left: where none named a file, standard input is read.
    fn last(&mut self) -> Reading
        ensures { count_of result ≡ 0 }
    {
        if self.named {
            return Reading::End;
        }
        let at = self.at;
        self.reads(at, Source::StandardInput)
    }

    // A word that is no option.
    fn open_named<R: Files<File = F>, E: Print>(
        &mut self,
        console: &Console<R, E>,
        at: usize,
        name: &[u8],
    ) -> Result<Reading, Failure>
        ensures { IfOk result (λ reading. count_of reading ≡ 0) }
    {
        if name == b"-".as_slice() {
            return Ok(self.reads(at, Source::StandardInput));
        }
        let file = opened(console.rt, name).map_err(|error| console.failed(name, &error))?;
        Ok(self.reads(at, Source::File(file)))
    }

    // The next argument is looked at. Behind two dashes none is an option.
    fn open_next<R: Env + Files<File = F>, E: Print>(
        &mut self,
        console: &Console<R, E>,
    ) -> Result<Reading, Failure>
        ensures { IfOk result (λ reading. count_of reading ≡ 0) }
    {
        let Some(at) = self.at.checked_add(1) else {
            return Ok(self.last());
        };
        let mut space = [0u8; PATH_MAX];
        let n = match console.rt.arg(at, &mut space) {
            Ok(n) => n,
            Err(FillError::NotPresent) => return Ok(self.last()),
            Err(FillError::TooLong) => {
                let error = Error::from_raw_os_error(ENAMETOOLONG);
                return Err(console.failed(b"an argument", &error));
            }
        };
        let name = &space[..n];
        if !self.dashes && name == b"--".as_slice() {
            self.at = at;
            self.dashes = true;
            return Ok(Reading::Argument);
        }
        self.open_named(console, at, name)
    }

    // A reading of what is open has failed.
    fn read_failed<R: Env, E: Print>(&self, console: &Console<R, E>, error: &Error) -> Failure {
        if let Some(Source::StandardInput) = &self.source {
            return console.failed(b"standard input", error);
        }
        let mut name = [0u8; PATH_MAX];
        let n = console.rt.arg(self.at, &mut name).unwrap_or(0);
        console.failed(&name[..n], error)
    }

    // Goes on: what is open is read, or the next argument is looked at.
    pub fn read<R: Env + Files<File = F> + io::Input, E: Print>(
        &mut self,
        console: &Console<R, E>,
        piece: &mut [u8],
    ) -> Result<Reading, Failure>
        ensures { IfOk result (λ reading. IsPrefixLen (count_of reading) piece.new) }
    {
        let Some(source) = &mut self.source else {
            return self.open_next(console);
        };
        match source.read(console.rt, piece) {
            Err(error) => Err(self.read_failed(console, &error)),
            Ok(0) => {
                self.source = None;
                Ok(Reading::FileEnd)
            }
            Ok(count) => Ok(Reading::Bytes(count)),
        }
    }
}
