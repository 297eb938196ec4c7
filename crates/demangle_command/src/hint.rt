// What is said where a file is given in the place of a name.
ghost use Rattle.std.specs.Prelude.{◌≡◌, ◌≢◌, ◌+◌, ◌-◌, ◌^◌, ◌<◌, [], IfOk, OnOk, IfErr};
ghost use Rattle.std.specs.Io.KnownBytes.{Appends};
ghost use Rattle.sym_filter.specs.Streams.{writer_faults};
ghost use Rattle.demangle_command.specs.Complaints.{hint_of};

use std::alloc::{AllocError, Global};
use std::rt::Files;
use std::{fs, str};
use sym_filter::{FilterFault, Sink, kind_of, write_all};

/// The first word of a command line that is a file, if no word names a symbol.
pub(crate) fn file_among<'w, R: Files>(rt: &R, words: &[&'w [u8]]) -> Option<&'w [u8]> {
    if words.iter().any(|word| kind_of(word).is_some()) {
        return None;
    }
    let names = words.get(1..).unwrap_or_default();
    names.iter().copied().find(|word| is_file(rt, word))
}

/// Whether a word has a dot or a slash and is a file that can be read.
fn is_file<R: Files>(rt: &R, word: &[u8]) -> bool {
    if !word.contains(&b'.') && !word.contains(&b'/') {
        return false;
    }
    let Ok(path) = str::from_utf8(word) else {
        return false;
    };
    match fs::metadata(rt, path) {
        Ok(metadata) => metadata.is_file() && fs::open(rt, path).is_ok(),
        Err(_) => false,
    }
}

/// Says that a word is no name, and how a file is given.
pub(crate) fn say_hint<E: Sink>(alloc: Global, word: &[u8], err: &mut E) -> Result<(), FilterFault>
    requires { E.failure_count err.old < 2 ^ 64 - 1 }
    ensures says { OnOk result (Appends (E.taken err.old) (E.taken err.new) (hint_of word.now)) }
    ensures fault { IfErr result (λ fault. fault ≢ FilterFault.Read) }
    ensures failures { E.failure_count err.new ≡ E.failure_count err.old + writer_faults result }
{
    let line = hint(alloc, word)?;
    match write_all(err, &line) {
        Ok(()) => Ok(()),
        Err(fault) => Err(fault),
    }
}

/// The line of the hint.
fn hint(alloc: Global, word: &[u8]) -> Result<Vec<u8>, AllocError>
    ensures { IfOk result (λ line. line.items ≡ hint_of word.now) }
{
    let mut line = Vec::from_slice(alloc, b"demangle: ")?;
    line.extend_from_slice(word)?;
    line.extend_from_slice(b" is not a name; for a file: demangle < ")?;
    line.extend_from_slice(word)?;
    line.push(b'\n')?;
    Ok(line)
}
