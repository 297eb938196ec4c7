//! The program `symfilt`, for the gate to run without arguments, over standard input.
#![tactic(auto)]

use std::process::ExitCode;
use symfilt_command::program;

fn main(rt: HostRuntime) -> ExitCode {
    ExitCode::from(program(&rt, &rt.stderr()))
}
