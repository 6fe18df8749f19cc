// One spelling of frame lines.
#![tactic(auto)]

use std::process::ExitCode;

fn main(rt: HostRuntime) -> ExitCode {
    ExitCode::from(programs::respell::respell(&rt, &rt.stderr()))
}
