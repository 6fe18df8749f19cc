// The options, before anything is read.
ghost use Rattle.command_line.specs.Free.{Free};

use crate::argument::{Argument, asked};
use crate::ending::Ending;
use crate::input::PATH_MAX;
use crate::output::Console;
use std::env::FillError;
use std::io::Print;
use std::rt::Env;

// The program's name and version, and what it was proved with.
fn version<R: Print, E: Print>(console: &Console<R, E>) -> Ending {
    console.write(console.program)?;
    console.write(b" 1.0.0\nproved with rattle-kit-13f logic dac8208d650f15bf\n")
}

// The first option decides: how the program ends by it, or nothing where the program is to run. Which arguments there are is the system's to say. One that is too long for a name is none of
// the options, and is told when it is to be opened.
pub fn options<R: Env + Print, E: Print>(console: &Console<R, E>, help: &[u8]) -> Option<Ending>
    ensures { Free result }
{
    let mut text = [0u8; PATH_MAX];
    for i in 1..usize::MAX {
        let n = match console.rt.arg(i, &mut text) {
            Ok(n) => n,
            Err(FillError::TooLong) => 0,
            Err(FillError::NotPresent) => return None,
        };
        match asked(&text[..n]) {
            Argument::Help => return Some(console.write(help)),
            Argument::Version => return Some(version(console)),
            Argument::Unknown => return Some(console.misused(&text[..n])),
            Argument::Dashes => return None,
            Argument::StandardInput | Argument::File => {}
        }
    }
    None
}
