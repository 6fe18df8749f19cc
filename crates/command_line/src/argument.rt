// What an argument asks for.
ghost use Rattle.std.specs.Prelude.{◌≡◌};
ghost use Rattle.command_line.specs.Argument.{argument_of};

#[derive(Clone, Copy)]
pub enum Argument {
    Help,
    Version,
    // Behind it stand no more options.
    Dashes,
    Unknown,
    StandardInput,
    File,
}

// By tests and no match, whose arms with a byte string tell a proof nothing but its length.
#[tactic(auto, unfolding(crate::specs::Argument::argument_of))]
pub fn asked(text: &[u8]) -> Argument
    ensures { result ≡ argument_of text.now }
{
    if text == b"--help".as_slice() {
        return Argument::Help;
    }
    if text == b"--version".as_slice() {
        return Argument::Version;
    }
    if text == b"--".as_slice() {
        return Argument::Dashes;
    }
    if text == b"-".as_slice() {
        return Argument::StandardInput;
    }
    if text.first() == Some(&b'-') {
        return Argument::Unknown;
    }
    Argument::File
}
