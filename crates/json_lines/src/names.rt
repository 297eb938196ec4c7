// The objects of names.
ghost use Rattle.std.specs.Prelude.{◌≡◌, ◌≢◌, ◌+◌, ◌-◌, ◌^◌, ◌<◌, [], IfOk, OnOk, OnErr, IfErr, map};
ghost use Rattle.std.specs.Io.KnownBytes.{Appends};
ghost use Rattle.sym_filter.specs.Streams.{PutsFront, writer_faults};
ghost use Rattle.demangle_names.specs.Style.{reads_paths};
ghost use Rattle.json_lines.specs.Objects.{name_line, name_lines, name_stays, names_stay};

use crate::lines::line_of;
use crate::meanings::meaning_of;
use demangle_names::Options;
use std::alloc::Global;
use sym_filter::{FilterFault, Sink, write_all};
use text_details::Detailed;

/// Writes the line of each name, and answers whether one of the names has no text.
///
/// # Errors
///
/// `Write` and `Memory`. What was written is a beginning of these lines.
pub fn answer_objects<D: Detailed, W: Sink>(
    alloc: Global,
    demangler: &D,
    options: Options,
    names: &[&[u8]],
    out: &mut W,
) -> Result<bool, FilterFault>
    requires out_failures { W.failure_count out.old < 2 ^ 64 - 1 }
    ensures lines { OnOk result (Appends (W.taken out.old) (W.taken out.new)
        (name_lines options.types (reads_paths options.style) (D.answer demangler.now) (D.details demangler.now) (map (λ name. name.now) names.now))) }
    ensures stays { IfOk result (λ one_stays. one_stays
        ≡ names_stay options.types (reads_paths options.style) (D.answer demangler.now) (D.details demangler.now) (map (λ name. name.now) names.now)) }
    ensures err { OnErr result (PutsFront (W.taken out.old) (W.taken out.new) []
        (name_lines options.types (reads_paths options.style) (D.answer demangler.now) (D.details demangler.now) (map (λ name. name.now) names.now))) }
    ensures fault { IfErr result (λ fault. fault ≢ FilterFault.Read) }
    ensures failures { W.failure_count out.new ≡ W.failure_count out.old + writer_faults result }
{
    let mut one_stays = false;
    'names: for name in names {
        match answer_object(alloc, demangler, options, name, out) {
            Ok(stays) => one_stays |= stays,
            Err(fault) => return Err(fault),
        }
    }
    Ok(one_stays)
}

/// Writes the line of a name, and answers whether the name has no text.
fn answer_object<D: Detailed, W: Sink>(
    alloc: Global,
    demangler: &D,
    options: Options,
    name: &[u8],
    out: &mut W,
) -> Result<bool, FilterFault>
    requires out_failures { W.failure_count out.old < 2 ^ 64 - 1 }
    ensures line { OnOk result (Appends (W.taken out.old) (W.taken out.new)
        (name_line options.types (reads_paths options.style) (D.answer demangler.now) (D.details demangler.now) name.now)) }
    ensures stays { IfOk result (λ left. left ≡ name_stays options.types (reads_paths options.style) (D.answer demangler.now) (D.details demangler.now) name.now) }
    ensures err { OnErr result (PutsFront (W.taken out.old) (W.taken out.new) []
        (name_line options.types (reads_paths options.style) (D.answer demangler.now) (D.details demangler.now) name.now)) }
    ensures fault { IfErr result (λ fault. fault ≢ FilterFault.Read) }
    ensures failures { W.failure_count out.new ≡ W.failure_count out.old + writer_faults result }
{
    let reads_paths = options.style.reads_paths();
    let meaning = meaning_of(alloc, demangler, options.types, reads_paths, name)?;
    let line = line_of(alloc, None, name, &meaning)?;
    match write_all(out, &line) {
        Ok(()) => Ok(meaning.stays()),
        Err(fault) => Err(fault),
    }
}
