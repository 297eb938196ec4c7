// Why names stay: the lines for names of the command line, and for words of an input that have no text.
ghost use Rattle.std.specs.Prelude.{◌≡◌, ◌≢◌, ◌+◌, ◌-◌, ◌^◌, ◌<◌, [], IfOk, OnOk, OnErr, IfErr, string_bytes};
ghost use Rattle.std.specs.Io.KnownBytes.{Appends};
ghost use Rattle.sym_filter.specs.Streams.{PutsFront, writer_faults};
ghost use Rattle.sym_command.specs.Lines.{answer_for};
ghost use Rattle.demangle_names.specs.Names.{reason_by, said_if, said_line};
ghost use Rattle.demangle_names.specs.Reasons.{placed};

use crate::sayings::{Said, Says, write_said};
use std::alloc::{AllocError, Global};
use sym_command::reason;
use sym_filter::{Demangler, FilterFault, Sink, kind_of};

/// The reason why a name stays if it is no symbol.
const NO_SYMBOL: &str = "not a symbol";

/// Says why a name stays, if that is requested.
pub(crate) fn say_why<D: Demangler, E: Sink>(
    alloc: Global,
    demangler: &D,
    asked: bool,
    name: &[u8],
    err: &mut E,
) -> Result<(), FilterFault>
    requires err_failures { E.failure_count err.old < 2 ^ 64 - 1 }
    ensures ok { OnOk result (Appends (E.taken err.old) (E.taken err.new) (said_if asked (D.answer demangler.now) name.now)) }
    ensures err { OnErr result (PutsFront (E.taken err.old) (E.taken err.new) [] (said_if asked (D.answer demangler.now) name.now)) }
    ensures fault { IfErr result (λ fault. fault ≢ FilterFault.Read) }
    ensures failures { E.failure_count err.new ≡ E.failure_count err.old + writer_faults result }
{
    if !asked {
        return Ok(());
    }
    let line = reason_line(alloc, demangler, name, name)?;
    write_said(err, &line)
}

/// The line that says why a name stays. It begins with `subject`: the name, or the name after the number of its line.
fn reason_line<D: Demangler>(
    alloc: Global,
    demangler: &D,
    subject: &[u8],
    name: &[u8],
) -> Result<Vec<u8>, AllocError>
    ensures { IfOk result (λ line. line.items ≡ said_line subject.now (reason_by (answer_for (D.answer demangler.now) name.now))) }
{
    let reason = reason_why(alloc, demangler, name)?;
    said_line(alloc, subject, reason.as_str())
}

/// The line that says why a name stays.
fn said_line(alloc: Global, name: &[u8], reason: &str) -> Result<Vec<u8>, AllocError>
    ensures { IfOk result (λ line. line.items ≡ said_line name.now reason.now) }
{
    let mut line = Vec::from_slice(alloc, b"demangle: ")?;
    line.extend_from_slice(name)?;
    line.extend_from_slice(b": ")?;
    line.extend_from_slice(reason.as_bytes())?;
    line.push(b'\n')?;
    Ok(line)
}

/// Why a name stays, by the answer for it as a symbol.
fn reason_why<D: Demangler>(alloc: Global, demangler: &D, name: &[u8]) -> Result<String, AllocError>
    ensures { IfOk result (λ text. string_bytes text ≡ reason_by (answer_for (D.answer demangler.now) name.now)) }
{
    let Some(kind) = kind_of(name) else {
        return String::from_str(alloc, NO_SYMBOL);
    };
    let mut lists = demangler.lists(alloc)?;
    let mut text = Vec::new(alloc);
    match demangler.append(&mut lists, kind, kind.symbol_of(name), &mut text) {
        Ok(()) => String::from_str(alloc, NO_SYMBOL),
        Err(refusal) => reason(alloc, refusal),
    }
}

/// A report that says why each word stays, and in which line the word is.
#[derive(Clone, Copy, Drop)]
pub struct Reasons<'r, D: Demangler> {
    pub demangler: &'r D,
}

impl<'r, D: Demangler> Says for Reasons<'r, D> {
    ghost use Rattle.demangle_names.specs.Reasons.{reasons_of};

    ghost saying = { λ reasons. reasons_of (D.answer reasons.demangler.now) };

    fn say(&self, alloc: Global, line: u64, word: &[u8]) -> Result<Said, AllocError> {
        let subject = placed(alloc, line, word)?;
        let bytes = reason_line(alloc, self.demangler, &subject, word)?;
        Ok(Said { bytes, stays: true })
    }
}

/// A word after the number of its line.
fn placed(alloc: Global, line: u64, word: &[u8]) -> Result<Vec<u8>, AllocError>
    ensures { IfOk result (λ subject. subject.items ≡ placed line word.now) }
{
    let place = format!(in alloc; "line {line}: ")?;
    let mut subject = Vec::from_slice(alloc, place.as_bytes())?;
    subject.extend_from_slice(word)?;
    Ok(subject)
}
