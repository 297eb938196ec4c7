// The program: symbols on the command line, or standard input filtered to standard output.
use crate::command::run_over;
use std::io;
use std::rt::Env;
use sym_command::{WRONG_USE, called_with, fault};
use sym_filter::{FilterFault, ReaderSource, WriterSink};

/// What the program calls itself.
const NAME: &str = "symfilt";

/// Runs the program over standard input and output, and answers its exit status.
pub fn program<R: Env + Input + Print + AllocGlobal, E: Print>(rt: &R, errors: &E) -> u8 {
    match run_on_streams(rt, errors) {
        Ok(status) => status,
        Err(error) => fault(errors, NAME, error),
    }
}

/// Runs the program on the words that it was called with, and on its streams.
fn run_on_streams<R: Env + Input + Print + AllocGlobal, E: Print>(
    rt: &R,
    errors: &E,
) -> Result<u8, FilterFault> {
    let mut input = ReaderSource::new(rt.reader());
    let mut out = WriterSink::new(io::writer(rt));
    let mut err = WriterSink::new(io::writer(errors));
    let Some(words) = called_with(rt, NAME, &mut err)? else {
        return Ok(WRONG_USE);
    };
    let mut texts = Vec::with_capacity(rt.alloc(), words.len())?;
    for word in &words {
        texts.push(word.as_str())?;
    }
    run_over(rt.alloc(), texts.as_slice(), &mut input, &mut out, &mut err)
}
