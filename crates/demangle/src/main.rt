//! Replaces mangled names by their texts: those on the command line, or those among the words of standard input.
#![tactic(auto)]

use demangle_command::program;
use std::io::IsTerminal;
use std::process::ExitCode;

fn main(rt: HostRuntime) -> ExitCode {
    ExitCode::from(program(&rt, &rt.stderr(), rt.stdout().is_terminal()))
}
