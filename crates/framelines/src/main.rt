// The frame-line program.
#![tactic(auto)]

use std::process::ExitCode;

fn main(rt: HostRuntime) -> ExitCode {
    ExitCode::from(programs::framelines::framelines(&rt, &rt.stderr()))
}
