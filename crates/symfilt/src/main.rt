//! Replaces mangled symbols by their texts: those on the command line, or those among the words of standard input.
#![tactic(auto)]

use std::process::ExitCode;
use symfilt_command::program;

fn main(rt: HostRuntime) -> ExitCode {
    ExitCode::from(program(&rt, &rt.stderr()))
}
