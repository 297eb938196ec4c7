// The program: names on the command line, or standard input filtered to standard output.
ghost use Rattle.std.specs.Prelude.{◌≡◌};

use crate::arguments::{Words, arguments_of, refuse_file, with_files};
use crate::command::run_over;
use crate::hint::{file_among, say_hint};
use crate::noted::Noted;
use crate::texts::lent_words;
use std::alloc::{AllocError, Global};
use std::io;
use std::io::{Error, ErrorKind};
use std::rt::{Env, Files};
use sym_command::{FAULT, WRONG_USE};
use sym_filter::{FilterFault, ReaderSource, Sink, Source, WriterSink};

/// The status where the output's reader has gone. A shell gives it for a program that SIGPIPE has ended.
const READER_GONE: u8 = 141;

/// Runs the program over standard input and output, which may be a terminal, and answers its exit status.
pub fn program<R: Env + Files + Input + Print + AllocGlobal, E: Print>(
    rt: &R,
    errors: &E,
    terminal: bool,
) -> u8 {
    let mut input = Noted::new(rt.reader());
    let mut out = Noted::new(io::writer(rt));
    let mut err = Noted::new(io::writer(errors));
    let ended = run_on_streams(
        rt,
        terminal,
        &mut ReaderSource::new(&mut input),
        &mut WriterSink::new(&mut out),
        &mut WriterSink::new(&mut err),
    );
    match ended {
        Ok(status) => status,
        Err(FilterFault::Read) => end_by(rt.alloc(), errors, FilterFault::Read, input.error()),
        Err(fault) => end_by(rt.alloc(), errors, fault, out.error().or(err.error())),
    }
}

/// Runs the program on the words that it was called with, and on its streams.
fn run_on_streams<R: Env + Files + AllocGlobal, S: Source, W: Sink, E: Sink>(
    rt: &R,
    terminal: bool,
    input: &mut S,
    out: &mut W,
    err: &mut E,
) -> Result<u8, FilterFault>
    requires in_failures { S.failure_count input.old ≡ 0 }
    requires out_failures { W.failure_count out.old ≡ 0 }
    requires err_failures { E.failure_count err.old ≡ 0 }
{
    let alloc = rt.alloc();
    let words = match with_files(rt, arguments_of(rt)?)? {
        Words::All(words) => words,
        Words::TooLong(argument) => return refuse_file(alloc, &argument, err),
    };
    let lent = lent_words(alloc, &words)?;
    let status = run_over(alloc, &lent, terminal, input, out, err)?;
    if status != WRONG_USE {
        if let Some(word) = file_among(rt, &lent) {
            say_hint(alloc, word, err)?;
        }
    }
    Ok(status)
}

/// Names a fault and its cause on standard error, and answers the status. Where the output's reader has gone, nothing is said.
fn end_by<E: Print>(alloc: Global, errors: &E, fault: FilterFault, error: Option<Error>) -> u8 {
    let Some(error) = error else {
        let _ = errors.println(format_args!("demangle: {fault}"));
        return FAULT;
    };
    if error.kind() == ErrorKind::BrokenPipe {
        return READER_GONE;
    }
    match words_of(alloc, error) {
        Ok(words) => {
            let _ = errors.println(format_args!("demangle: {fault}: {words}"));
        }
        Err(_) => {
            let _ = errors.println(format_args!("demangle: {fault}: {error}"));
        }
    }
    FAULT
}

/// What the system says of an error, without its number.
fn words_of(alloc: Global, error: Error) -> Result<String, AllocError> {
    let words = format!(in alloc; "{error}")?;
    let number = format!(in alloc; " (os error {})", error.raw_os_error().unwrap_or_default())?;
    match words.strip_suffix(number.as_str()) {
        Some(words) => String::from_str(alloc, words),
        None => Ok(words),
    }
}
