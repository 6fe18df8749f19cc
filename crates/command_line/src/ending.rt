// How a program ends.
ghost use Rattle.std.specs.Prelude.{◌≡◌};
ghost use Rattle.command_line.specs.Ending.{status_of};

// Why a program does not end well.
#[derive(Clone, Copy, Debug, PartialEq, Eq)]
pub enum Failure {
    // A read or a write failed.
    Failed,
    // An option that there is not.
    Misused,
}

// Done, or why not.
pub type Ending = Result<(), Failure>;

pub fn status(ending: Ending) -> u8
    ensures { result ≡ status_of ending }
{
    match ending {
        Ok(()) => 0,
        Err(Failure::Failed) => 1,
        Err(Failure::Misused) => 2,
    }
}
