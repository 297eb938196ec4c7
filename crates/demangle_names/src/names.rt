// Names, whose lines are filtered one by one.
ghost use Rattle.std.specs.Prelude.{◌≡◌, ◌≢◌, ◌+◌, ◌-◌, ◌^◌, ◌<◌, [], IfOk, OnOk, OnErr, IfErr, map};
ghost use Rattle.std.specs.Io.KnownBytes.{Appends};
ghost use Rattle.sym_filter.specs.Runs.{tally_at};
ghost use Rattle.sym_filter.specs.declared.kinds.Letters.TheVariants.{Within};
ghost use Rattle.sym_filter.specs.Streams.{PutsFront, writer_faults};
ghost use Rattle.sym_command.specs.Command.{Took};
ghost use Rattle.demangle_names.specs.Names.{AnswersNames, NamesFront, NameFront, LineFront, FiltersSome, filtered, line_of, said_for, said_of, name_stays, stays_by, stays_for, written_for};

use crate::options::Options;
use crate::reasons::say_why;
use std::alloc::{AllocError, Global};
use sym_filter::{
    Demangler, FilterFault, Letters, ReaderSource, Sink, Tally, filter_words, write_all,
};
use type_names::type_for;

/// Writes a line for each name. If types are read and the name is a type, the line is the type's text; otherwise it is the name's line with
/// its symbols replaced. Says why a name stays, if reasons are requested. Answers whether any name stays.
///
/// # Errors
///
/// `Write` and `Memory`.
pub fn answer_names<D: Demangler, W: Sink, E: Sink>(
    alloc: Global,
    demangler: &D,
    options: Options,
    names: &[&[u8]],
    out: &mut W,
    err: &mut E,
) -> Result<bool, FilterFault>
    requires out_failures { W.failure_count out.old < 2 ^ 64 - 1 }
    requires err_failures { E.failure_count err.old < 2 ^ 64 - 1 }
    ensures ok { IfOk result (λ one_stays. Took (W.taken out.old) (W.taken out.new) (E.taken err.old) (E.taken err.new)
        (AnswersNames (D.answer demangler.now) options.types options.why (map (λ name. name.now) names.now) one_stays)) }
    ensures err { OnErr result (Took (W.taken out.old) (W.taken out.new) (E.taken err.old) (E.taken err.new)
        (NamesFront (D.answer demangler.now) options.types options.why (map (λ name. name.now) names.now))) }
    ensures fault { IfErr result (λ fault. fault ≢ FilterFault.Read) }
    ensures failures { W.failure_count out.new + E.failure_count err.new
        ≡ W.failure_count out.old + E.failure_count err.old + writer_faults result }
{
    let mut one_stays = false;
    'names: for name in names {
        match answer_name(alloc, demangler, options, name, out, err) {
            Ok(stays) => one_stays |= stays,
            Err(fault) => return Err(fault),
        }
    }
    Ok(one_stays)
}

/// Writes what replaces a name. If the name stays and reasons are requested, says why. Answers whether the name stays.
fn answer_name<D: Demangler, W: Sink, E: Sink>(
    alloc: Global,
    demangler: &D,
    options: Options,
    name: &[u8],
    out: &mut W,
    err: &mut E,
) -> Result<bool, FilterFault>
    requires out_failures { W.failure_count out.old < 2 ^ 64 - 1 }
    requires err_failures { E.failure_count err.old < 2 ^ 64 - 1 }
    ensures stays { IfOk result (λ left. left ≡ stays_for options.types (D.answer demangler.now) name.now) }
    ensures line { OnOk result (Appends (W.taken out.old) (W.taken out.new) (written_for options.types (D.answer demangler.now) name.now)) }
    ensures said { OnOk result (Appends (E.taken err.old) (E.taken err.new) (said_for options.types options.why (D.answer demangler.now) name.now)) }
    ensures err { OnErr result (Took (W.taken out.old) (W.taken out.new) (E.taken err.old) (E.taken err.new)
        (NameFront (D.answer demangler.now) options.types options.why name.now)) }
    ensures fault { IfErr result (λ fault. fault ≢ FilterFault.Read) }
    ensures out_failures { OnOk result (W.failure_count out.new ≡ W.failure_count out.old) }
    ensures failures { W.failure_count out.new + E.failure_count err.new
        ≡ W.failure_count out.old + E.failure_count err.old + writer_faults result }
{
    match type_for(alloc, demangler, options.types, name)? {
        Some(text) => match write_line(out, text) {
            Ok(()) => Ok(false),
            Err(fault) => Err(fault),
        },
        None => answer_line(alloc, demangler, options.why, name, out, err),
    }
}

/// Writes a text and a newline.
fn write_line<W: Sink>(out: &mut W, text: Vec<u8>) -> Result<(), FilterFault>
    requires { W.failure_count out.old < 2 ^ 64 - 1 }
    ensures ok { OnOk result (Appends (W.taken out.old) (W.taken out.new) (line_of text.items)) }
    ensures err { OnErr result (PutsFront (W.taken out.old) (W.taken out.new) [] (line_of text.items)) }
    ensures fault { IfErr result (λ fault. fault ≢ FilterFault.Read) }
    ensures failures { W.failure_count out.new ≡ W.failure_count out.old + writer_faults result }
{
    let mut line = text;
    line.push(b'\n')?;
    match write_all(out, &line) {
        Ok(()) => Ok(()),
        Err(fault) => Err(fault),
    }
}

/// Writes the line of a name with its symbols replaced. If the name stays and reasons are requested, says why. Answers whether the name stays.
fn answer_line<D: Demangler, W: Sink, E: Sink>(
    alloc: Global,
    demangler: &D,
    why: bool,
    name: &[u8],
    out: &mut W,
    err: &mut E,
) -> Result<bool, FilterFault>
    requires out_failures { W.failure_count out.old < 2 ^ 64 - 1 }
    requires err_failures { E.failure_count err.old < 2 ^ 64 - 1 }
    ensures stays { IfOk result (λ left. left ≡ name_stays (D.answer demangler.now) name.now) }
    ensures line { OnOk result (Appends (W.taken out.old) (W.taken out.new) (filtered (D.answer demangler.now) (line_of name.now))) }
    ensures said { OnOk result (Appends (E.taken err.old) (E.taken err.new) (said_of why (D.answer demangler.now) name.now)) }
    ensures err { OnErr result (Took (W.taken out.old) (W.taken out.new) (E.taken err.old) (E.taken err.new)
        (LineFront (D.answer demangler.now) why name.now)) }
    ensures fault { IfErr result (λ fault. fault ≢ FilterFault.Read) }
    ensures out_failures { OnOk result (W.failure_count out.new ≡ W.failure_count out.old) }
    ensures failures { W.failure_count out.new + E.failure_count err.new
        ≡ W.failure_count out.old + E.failure_count err.old + writer_faults result }
{
    let line = line_of(alloc, name)?;
    let tally = match filter_line(alloc, demangler, &line, out) {
        Ok(tally) => tally,
        Err(fault) => return Err(fault),
    };
    let stays = stays_by(tally);
    match say_why(alloc, demangler, why && stays, name, err) {
        Ok(()) => Ok(stays),
        Err(fault) => Err(fault),
    }
}

/// The line that a name makes.
fn line_of(alloc: Global, name: &[u8]) -> Result<Vec<u8>, AllocError>
    ensures { IfOk result (λ line. line.items ≡ line_of name.now) }
{
    let mut line = Vec::from_slice(alloc, name)?;
    line.push(b'\n')?;
    Ok(line)
}

/// Filters a line.
fn filter_line<D: Demangler, W: Sink>(
    alloc: Global,
    demangler: &D,
    line: &[u8],
    out: &mut W,
) -> Result<Tally, FilterFault>
    requires out_failures { W.failure_count out.old < 2 ^ 64 - 1 }
    ensures line { OnOk result (Appends (W.taken out.old) (W.taken out.new) (filtered (D.answer demangler.now) line.now)) }
    ensures tally { IfOk result (λ tally. tally ≡ tally_at Within (D.answer demangler.now) line.now) }
    ensures err { OnErr result (FiltersSome (D.answer demangler.now) line.now (W.taken out.old) (W.taken out.new)) }
    ensures fault { IfErr result (λ fault. fault ≢ FilterFault.Read) }
    ensures failures { W.failure_count out.new ≡ W.failure_count out.old + writer_faults result }
{
    let mut reader = ReaderSource::new(line);
    match filter_words(alloc, &mut reader, out, demangler, Letters::Within) {
        Ok(tally) => Ok(tally),
        Err(fault) => match fault {
            FilterFault::Write => Err(FilterFault::Write),
            // reading from a list never fails
            FilterFault::Read => Err(FilterFault::Memory),
            FilterFault::Memory => Err(FilterFault::Memory),
        },
    }
}

/// Whether a text stays: a word in it has no text, or there is no word in it.
fn stays_by(tally: Tally) -> bool
    ensures { result ≡ stays_by tally }
{
    tally.refused != 0 || tally.replaced == 0
}
