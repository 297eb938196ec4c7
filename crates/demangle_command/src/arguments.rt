// The words of a process: its arguments, and in the place of an argument @FILE the words of the file.
ghost use Rattle.std.specs.Prelude.{◌≡◌, ◌≢◌, ◌++◌, ◌+◌, ◌-◌, ◌^◌, ◌<◌, IfOk, OnOk, IfErr, map};
ghost use Rattle.std.specs.Io.KnownBytes.{Appends};
ghost use Rattle.sym_filter.specs.Streams.{writer_faults};
ghost use Rattle.demangle_command.specs.ArgumentFiles.{too_long, words_of};

use crate::argument_files::words_in;
use std::alloc::{AllocError, Global};
use std::env::FillError;
use std::io::Read;
use std::rt::{Env, Files};
use std::{fs, io, str};
use sym_command::WRONG_USE;
use sym_filter::{FilterFault, Sink, write_all};

/// The greatest length of a file of arguments, in bytes.
pub const LONGEST_FILE: u64 = 4_194_304;

/// The bytes for which an argument has room at first.
const ARGUMENT_ROOM: usize = 4_096;

/// The words that a process was called with, the program's name first.
pub(crate) fn arguments_of<R: Env + AllocGlobal>(rt: &R) -> Result<Vec<Vec<u8>>, AllocError> {
    let alloc = rt.alloc();
    let mut room = vec![in alloc; 0u8; ARGUMENT_ROOM]?;
    let mut arguments = Vec::new(alloc);
    for at in 0..usize::MAX {
        match argument(rt, at, &mut room)? {
            Some(argument) => arguments.push(argument)?,
            None => break,
        }
    }
    Ok(arguments)
}

/// The word at a place, if there is one. The room for the word grows until the word fits.
fn argument<R: Env + AllocGlobal>(
    rt: &R,
    at: usize,
    room: &mut Vec<u8>,
) -> Result<Option<Vec<u8>>, AllocError> {
    for _ in 0..usize::BITS {
        match rt.arg(at, room) {
            Ok(len) => {
                let bytes = room.get(..len).unwrap_or_default();
                return Ok(Some(Vec::from_slice(rt.alloc(), bytes)?));
            }
            Err(FillError::NotPresent) => return Ok(None),
            Err(FillError::TooLong) => room.resize(room.len().saturating_mul(2), 0u8)?,
        }
    }
    Err(AllocError)
}

/// What arguments denote: words, or the argument whose file is too long.
#[derive(Drop)]
pub enum Words {
    All(Vec<Vec<u8>>),
    TooLong(Vec<u8>),
}

/// What is read of a file of arguments: nothing if the file can't be read, that it is too long, or its words.
#[derive(Drop)]
enum FileWords {
    None,
    TooLong,
    Some(Vec<Vec<u8>>),
}

/// The words that arguments denote: `@FILE` denotes the words of the file, if that can be read, and each other argument denotes itself. A
/// word of a file isn't taken as the name of another file.
pub(crate) fn with_files<R: Files + AllocGlobal>(
    rt: &R,
    arguments: Vec<Vec<u8>>,
) -> Result<Words, AllocError> {
    let mut words = Vec::with_capacity(rt.alloc(), arguments.len())?;
    for argument in arguments {
        match words_of_file(rt, &argument)? {
            FileWords::None => words.push(argument)?,
            FileWords::TooLong => return Ok(Words::TooLong(argument)),
            FileWords::Some(of_file) => push_words(&mut words, of_file)?,
        }
    }
    Ok(Words::All(words))
}

/// Appends words.
fn push_words(words: &mut Vec<Vec<u8>>, more: Vec<Vec<u8>>) -> Result<(), AllocError>
    ensures { OnOk result (words_of words.new ≡ words_of words.old ++ words_of more) }
{
    let mut more = more;
    words.append(&mut more)
}

/// What is read of the file that an argument names, if it names one.
fn words_of_file<R: Files + AllocGlobal>(rt: &R, argument: &[u8]) -> Result<FileWords, AllocError> {
    let Some(path) = path_of(argument) else {
        return Ok(FileWords::None);
    };
    match text_of(rt, path) {
        Ok(text) if text.len() as u64 > LONGEST_FILE => Ok(FileWords::TooLong),
        Ok(text) => Ok(FileWords::Some(words_in(rt.alloc(), &text)?)),
        Err(error) => {
            if error.kind() == io::ErrorKind::OutOfMemory {
                return Err(AllocError);
            }
            Ok(FileWords::None)
        }
    }
}

/// The path after `@`, if an argument begins with `@` and the path is text.
fn path_of(argument: &[u8]) -> Option<&str> {
    let path = argument.strip_prefix(b"@")?;
    str::from_utf8(path).ok()
}

/// The bytes of a file, but at most one byte more than the longest file may have.
fn text_of<R: Files + AllocGlobal>(rt: &R, path: &str) -> io::Result<Vec<u8>> {
    let mut text = Vec::new(rt.alloc());
    fs::open(rt, path)?
        .take(LONGEST_FILE + 1)
        .read_to_end(&mut text)?;
    Ok(text)
}

/// Says that the file of an argument is too long, and answers the status.
pub(crate) fn refuse_file<E: Sink>(
    alloc: Global,
    argument: &[u8],
    err: &mut E,
) -> Result<u8, FilterFault>
    requires { E.failure_count err.old < 2 ^ 64 - 1 }
    ensures says { OnOk result (Appends (E.taken err.old) (E.taken err.new) (too_long argument.now)) }
    ensures wrong_use { IfOk result (λ status. status ≡ 2) }
    ensures fault { IfErr result (λ fault. fault ≢ FilterFault.Read) }
    ensures failures { E.failure_count err.new ≡ E.failure_count err.old + writer_faults result }
{
    let line = too_long(alloc, argument)?;
    match write_all(err, &line) {
        Ok(()) => Ok(WRONG_USE),
        Err(fault) => Err(fault),
    }
}

/// The line that says that the file of an argument is too long.
fn too_long(alloc: Global, argument: &[u8]) -> Result<Vec<u8>, AllocError>
    ensures { IfOk result (λ line. line.items ≡ too_long argument.now) }
{
    let mut line = Vec::from_slice(alloc, b"demangle: ")?;
    line.extend_from_slice(argument)?;
    let bound = format!(in alloc; ": more than {LONGEST_FILE} bytes\n")?;
    line.extend_from_slice(bound.as_bytes())?;
    Ok(line)
}
