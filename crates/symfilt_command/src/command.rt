// The command line.
ghost use Rattle.std.specs.Prelude.{◌≡◌, ◌≢◌, ◌⊎◌, ◌+◌, ◌-◌, ◌^◌, ◌<◌, List, ℕ, [], ◌++◌, true, false, OnOk, OnErr, IfOk, IfErr, map};
ghost use Rattle.clap.specs.Words.{found_of, kind_of, rows_of};
ghost use Rattle.clap.specs.declared.error.kind.ErrorKind.{ErrorKind as ErrorKind-type};
ghost use Rattle.sym_filter.specs.Streams.{reader_faults, writer_faults, FiltersAllAt, FiltersFrontAt};
ghost use Rattle.sym_command.specs.Command.{Took, Says, AnswersWords, AnswersFront};
ghost use Rattle.sym_command.specs.declared.outcome.Run.{Run as Run-type};
ghost use Rattle.sym_short.specs.Rewriting.{answers_as};
ghost use Rattle.sym_languages.specs.Languages.{answers_by, AreCountsBy};
ghost use Rattle.symfilt_command.specs.Command.{answers_of, counting_of, filter_answers, AreBegun, IsRun, IsRunOf, IsStopped, Ends, Stops};

use clap::error::ErrorKind;
use clap::{ArgMatches, Error};
use std::alloc::Global;
use std::mem;
use sym_command::{
    ANSWERED, Asked, FAULT, Filtering, Options, Run, answer_words, filtering_of, found_in,
    options_of, refuse_with, symbols_of,
};
use sym_filter::{Demangler, FilterFault, Letters, ListSink, Sink, Source, Tally, filter_words};
use sym_languages::languages::Cpp;
use sym_languages::{Abi, Languages, Legacy, Pressing, Wide, WidePressing};
use sym_recent::{Alike, Recent};
use sym_short::{Rewriting, Shortening, Texts};

/// Runs the program over an input and two outputs: answers the symbols of a command line, or filters the input if the command line has no
/// symbols. The words are those of the command line, the program's name first, and the result is the status.
///
/// # Errors
///
/// `Read` and `Write` where a stream failed, and `Memory`. The bytes written are a beginning of those that a run without faults writes.
pub fn run_over<S: Source, W: Sink, E: Sink>(
    alloc: Global,
    words: &[&str],
    input: &mut S,
    out: &mut W,
    err: &mut E,
) -> Result<u8, FilterFault>
    requires in_failures { S.failure_count input.old < 2 ^ 64 - 1 }
    requires out_failures { W.failure_count out.old + E.failure_count err.old < 2 ^ 64 - 1 }
    ensures ok { IfOk result (Ends (map (λ word. word.now) words.now) (S.coming input.old) (S.coming input.new)
        (W.taken out.old) (W.taken out.new) (E.taken err.old) (E.taken err.new)) }
    ensures err { OnErr result (Stops (map (λ word. word.now) words.now) (S.coming input.old) (S.coming input.new)
        (W.taken out.old) (W.taken out.new) (E.taken err.old) (E.taken err.new)) }
    ensures read_failed { S.failure_count input.new ≡ S.failure_count input.old + reader_faults result }
    ensures write_failed { W.failure_count out.new + E.failure_count err.new
        ≡ W.failure_count out.old + E.failure_count err.old + writer_faults result }
{
    match run_to(alloc, words, out, err)? {
        Run::Done(status) => Ok(status),
        Run::Filter(filtering) => {
            filter_asked(alloc, filtering, input, out)?;
            Ok(ANSWERED)
        }
    }
}

/// Filters an input as a command line requests.
///
/// # Errors
///
/// The errors of `filter_words`.
pub fn filter_asked<S: Source, W: Sink>(
    alloc: Global,
    filtering: Filtering,
    input: &mut S,
    out: &mut W,
) -> Result<Tally, FilterFault>
    requires in_failures { S.failure_count input.old < 2 ^ 64 - 1 }
    requires out_failures { W.failure_count out.old < 2 ^ 64 - 1 }
    ensures ok { IfOk result (λ tally. FiltersAllAt filtering.letters (filter_answers filtering)
        (S.coming input.old) (S.coming input.new) (W.taken out.old) (W.taken out.new) tally) }
    ensures err { OnErr result (FiltersFrontAt filtering.letters (filter_answers filtering)
        (S.coming input.old) (S.coming input.new) (W.taken out.old) (W.taken out.new)) }
    ensures read_failed { S.failure_count input.new ≡ S.failure_count input.old + reader_faults result }
    ensures write_failed { W.failure_count out.new ≡ W.failure_count out.old + writer_faults result }
{
    match filtering.asked {
        Asked::Text => filter_in(alloc, Abi, filtering, input, out),
        Asked::WideText => filter_in(alloc, Wide, filtering, input, out),
        Asked::Pressed => filter_by(alloc, Pressing, filtering.letters, input, out),
        Asked::WidePressed => filter_by(alloc, WidePressing, filtering.letters, input, out),
    }
}

/// Filters an input with a grammar of C++.
fn filter_in<C: Cpp, S: Source, W: Sink>(
    alloc: Global,
    cpp: C,
    filtering: Filtering,
    input: &mut S,
    out: &mut W,
) -> Result<Tally, FilterFault>
    requires in_failures { S.failure_count input.old < 2 ^ 64 - 1 }
    requires out_failures { W.failure_count out.old < 2 ^ 64 - 1 }
    ensures ok { IfOk result (λ tally. FiltersAllAt filtering.letters (answers_as filtering.texts filtering.legacy (answers_by C.mangled filtering.legacy filtering.limit filtering.detail))
        (S.coming input.old) (S.coming input.new) (W.taken out.old) (W.taken out.new) tally) }
    ensures err { OnErr result (FiltersFrontAt filtering.letters (answers_as filtering.texts filtering.legacy (answers_by C.mangled filtering.legacy filtering.limit filtering.detail))
        (S.coming input.old) (S.coming input.new) (W.taken out.old) (W.taken out.new)) }
    ensures read_failed { S.failure_count input.new ≡ S.failure_count input.old + reader_faults result }
    ensures write_failed { W.failure_count out.new ≡ W.failure_count out.old + writer_faults result }
{
    let Filtering {
        limit,
        detail,
        legacy,
        ..
    } = filtering;
    let languages = Languages { limit, detail, cpp };
    if legacy {
        return filter_as(alloc, Legacy { languages }, filtering, input, out);
    }
    filter_as(alloc, languages, filtering, input, out)
}

/// Filters an input with a demangler, whose texts are made short if that is requested.
fn filter_as<D: Alike + Copy + Drop, S: Source, W: Sink>(
    alloc: Global,
    demangler: D,
    filtering: Filtering,
    input: &mut S,
    out: &mut W,
) -> Result<Tally, FilterFault>
    requires in_failures { S.failure_count input.old < 2 ^ 64 - 1 }
    requires out_failures { W.failure_count out.old < 2 ^ 64 - 1 }
    ensures ok { IfOk result (λ tally. FiltersAllAt filtering.letters (answers_as filtering.texts filtering.legacy (D.answer demangler))
        (S.coming input.old) (S.coming input.new) (W.taken out.old) (W.taken out.new) tally) }
    ensures err { OnErr result (FiltersFrontAt filtering.letters (answers_as filtering.texts filtering.legacy (D.answer demangler))
        (S.coming input.old) (S.coming input.new) (W.taken out.old) (W.taken out.new)) }
    ensures read_failed { S.failure_count input.new ≡ S.failure_count input.old + reader_faults result }
    ensures write_failed { W.failure_count out.new ≡ W.failure_count out.old + writer_faults result }
{
    match filtering.texts {
        Texts::Whole => filter_by(alloc, demangler, filtering.letters, input, out),
        Texts::Short { keeps_inline } => {
            let short = Rewriting {
                demangler,
                rewrite: Shortening {
                    keeps_inline,
                    reads_paths: filtering.legacy,
                },
            };
            filter_by(alloc, short, filtering.letters, input, out)
        }
    }
}

/// Filters an input with a demangler. Symbols that came shortly before are answered without calling the demangler again.
fn filter_by<D: Alike + Copy + Drop, S: Source, W: Sink>(
    alloc: Global,
    demangler: D,
    letters: Letters,
    input: &mut S,
    out: &mut W,
) -> Result<Tally, FilterFault>
    requires in_failures { S.failure_count input.old < 2 ^ 64 - 1 }
    requires out_failures { W.failure_count out.old < 2 ^ 64 - 1 }
    ensures ok { IfOk result (λ tally. FiltersAllAt letters (D.answer demangler)
        (S.coming input.old) (S.coming input.new) (W.taken out.old) (W.taken out.new) tally) }
    ensures err { OnErr result (FiltersFrontAt letters (D.answer demangler)
        (S.coming input.old) (S.coming input.new) (W.taken out.old) (W.taken out.new)) }
    ensures read_failed { S.failure_count input.new ≡ S.failure_count input.old + reader_faults result }
    ensures write_failed { W.failure_count out.new ≡ W.failure_count out.old + writer_faults result }
{
    filter_words(alloc, input, out, &Recent { demangler }, letters)
}

/// Appends the lines for the words of a command line, the program's name first, and says what the program is to do.
/// Where memory runs out, each list has a beginning of its lines, and the status is 3.
pub fn run(alloc: Global, words: &[&str], out: &mut Vec<u8>, err: &mut Vec<u8>) -> Run
    ensures { (lines said : List ℕ) × (out.new.items ≡ out.old.items ++ lines) × (err.new.items ≡ err.old.items ++ said)
        × (IsRun (map (λ word. word.now) words.now) result lines said ⊎ ((result ≡ Run-type.Done 3) × IsStopped (map (λ word. word.now) words.now) lines said)) }
{
    let mut out_sink = ListSink::new(mem::replace(out, Vec::new(alloc)));
    let mut err_sink = ListSink::new(mem::replace(err, Vec::new(alloc)));
    let outcome = run_to(alloc, words, &mut out_sink, &mut err_sink);
    *out = out_sink.into_list();
    *err = err_sink.into_list();
    match outcome {
        Ok(run) => run,
        Err(_) => Run::Done(FAULT),
    }
}

/// Writes the lines for the words of a command line, the program's name first, and says what the program is to do. Lines wait until they
/// have some kilobytes, so all words together need only the memory of the word that needs most.
pub fn run_to<W: Sink, E: Sink>(
    alloc: Global,
    words: &[&str],
    out: &mut W,
    err: &mut E,
) -> Result<Run, FilterFault>
    requires out_failures { W.failure_count out.old < 2 ^ 64 - 1 }
    requires err_failures { E.failure_count err.old < 2 ^ 64 - 1 }
    ensures ok { IfOk result (λ run. Took (W.taken out.old) (W.taken out.new) (E.taken err.old) (E.taken err.new) (IsRun (map (λ word. word.now) words.now) run)) }
    ensures err { OnErr result (Took (W.taken out.old) (W.taken out.new) (E.taken err.old) (E.taken err.new) (IsStopped (map (λ word. word.now) words.now))) }
    ensures fault { IfErr result (λ fault. fault ≢ FilterFault.Read) }
    ensures failures { W.failure_count out.new + E.failure_count err.new
        ≡ W.failure_count out.old + E.failure_count err.old + writer_faults result }
{
    match found_in(alloc, words) {
        Ok(matches) => answer_all(alloc, &matches, out, err),
        Err(error) => refuse(alloc, &error, err),
    }
}

/// Writes what the command line's parser says of an error, or of a request for help or the version.
fn refuse<E: Sink>(alloc: Global, error: &Error, err: &mut E) -> Result<Run, FilterFault>
    requires err_failures { E.failure_count err.old < 2 ^ 64 - 1 }
    ensures says { Says (E.taken err.old) (E.taken err.new) }
    ensures known { OnOk result (kind_of error.now ≢ ErrorKind-type.OutOfMemory) }
    ensures wrong_use { IfOk result (λ run. run ≡ Run-type.Done 2) }
    ensures fault { IfErr result (λ fault. fault ≢ FilterFault.Read) }
    ensures failures { E.failure_count err.new ≡ E.failure_count err.old + writer_faults result }
{
    if error.kind() == ErrorKind::OutOfMemory {
        return Err(FilterFault::Memory);
    }
    let text = format!(in alloc; "{error}")?;
    refuse_run(err, text.as_bytes())
}

/// Ends a command line that is refused.
fn refuse_run<E: Sink>(err: &mut E, why: &[u8]) -> Result<Run, FilterFault>
    requires err_failures { E.failure_count err.old < 2 ^ 64 - 1 }
    ensures says { Says (E.taken err.old) (E.taken err.new) }
    ensures wrong_use { IfOk result (λ run. run ≡ Run-type.Done 2) }
    ensures fault { IfErr result (λ fault. fault ≢ FilterFault.Read) }
    ensures failures { E.failure_count err.new ≡ E.failure_count err.old + writer_faults result }
{
    match refuse_with(err, why) {
        Ok(status) => Ok(Run::Done(status)),
        Err(fault) => Err(fault),
    }
}

/// Writes the lines of each symbol, or answers that standard input has to be filtered.
fn answer_all<W: Sink, E: Sink>(
    alloc: Global,
    matches: &ArgMatches<'_>,
    out: &mut W,
    err: &mut E,
) -> Result<Run, FilterFault>
    requires out_failures { W.failure_count out.old < 2 ^ 64 - 1 }
    requires err_failures { E.failure_count err.old < 2 ^ 64 - 1 }
    ensures ok { IfOk result (λ run. Took (W.taken out.old) (W.taken out.new) (E.taken err.old) (E.taken err.new) (IsRunOf (rows_of (found_of matches.now)) run)) }
    ensures err { OnErr result (Took (W.taken out.old) (W.taken out.new) (E.taken err.old) (E.taken err.new) (λ lines said. AreBegun (rows_of (found_of matches.now)) lines said ⊎ (lines ≡ []))) }
    ensures fault { IfErr result (λ fault. fault ≢ FilterFault.Read) }
    ensures failures { W.failure_count out.new + E.failure_count err.new
        ≡ W.failure_count out.old + E.failure_count err.old + writer_faults result }
{
    let options = options_of(matches);
    let symbols = symbols_of(matches);
    if !symbols.is_empty() {
        let status = answer_symbols(alloc, options, symbols, out, err)?;
        return Ok(Run::Done(status));
    }
    match filtering_of(options) {
        Some(filtering) => Ok(Run::Filter(filtering)),
        None => refuse_run(err, b"symfilt: --stats needs a symbol\n"),
    }
}

/// Writes the lines of words as the options request, and answers the status.
fn answer_symbols<W: Sink, E: Sink>(
    alloc: Global,
    options: Options,
    words: &[&str],
    out: &mut W,
    err: &mut E,
) -> Result<u8, FilterFault>
    requires out_failures { W.failure_count out.old < 2 ^ 64 - 1 }
    requires err_failures { E.failure_count err.old < 2 ^ 64 - 1 }
    ensures ok { IfOk result (λ status. Took (W.taken out.old) (W.taken out.new) (E.taken err.old) (E.taken err.new)
        (AnswersWords options.asked (answers_of options) (counting_of options) options.stats (map (λ word. word.now) words.now) status)) }
    ensures err { OnErr result (Took (W.taken out.old) (W.taken out.new) (E.taken err.old) (E.taken err.new)
        (AnswersFront options.asked (answers_of options) (counting_of options) options.stats (map (λ word. word.now) words.now))) }
    ensures fault { IfErr result (λ fault. fault ≢ FilterFault.Read) }
    ensures failures { W.failure_count out.new + E.failure_count err.new
        ≡ W.failure_count out.old + E.failure_count err.old + writer_faults result }
{
    match options.asked {
        Asked::Text => answer_in(alloc, Abi, options, words, out, err),
        Asked::WideText => answer_in(alloc, Wide, options, words, out, err),
        Asked::Pressed => answer_words(alloc, &Pressing, options, words, out, err),
        Asked::WidePressed => answer_words(alloc, &WidePressing, options, words, out, err),
    }
}

/// Writes the lines of words, which get texts and not pressed spellings, with a grammar of C++.
fn answer_in<C: Cpp, W: Sink, E: Sink>(
    alloc: Global,
    cpp: C,
    options: Options,
    words: &[&str],
    out: &mut W,
    err: &mut E,
) -> Result<u8, FilterFault>
    requires out_failures { W.failure_count out.old < 2 ^ 64 - 1 }
    requires err_failures { E.failure_count err.old < 2 ^ 64 - 1 }
    ensures ok { IfOk result (λ status. Took (W.taken out.old) (W.taken out.new) (E.taken err.old) (E.taken err.new)
        (AnswersWords options.asked (answers_as options.texts options.legacy (answers_by C.mangled options.legacy options.limit options.detail))
        (AreCountsBy (record { mangled = C.mangled; IsRead = C.is_read; bytes_of = C.bytes_of; whole_of = C.whole_of; are_nodes = C.are_nodes; nodes_a_byte = C.nodes_a_byte }))
        options.stats (map (λ word. word.now) words.now) status)) }
    ensures err { OnErr result (Took (W.taken out.old) (W.taken out.new) (E.taken err.old) (E.taken err.new)
        (AnswersFront options.asked (answers_as options.texts options.legacy (answers_by C.mangled options.legacy options.limit options.detail))
        (AreCountsBy (record { mangled = C.mangled; IsRead = C.is_read; bytes_of = C.bytes_of; whole_of = C.whole_of; are_nodes = C.are_nodes; nodes_a_byte = C.nodes_a_byte }))
        options.stats (map (λ word. word.now) words.now))) }
    ensures fault { IfErr result (λ fault. fault ≢ FilterFault.Read) }
    ensures failures { W.failure_count out.new + E.failure_count err.new
        ≡ W.failure_count out.old + E.failure_count err.old + writer_faults result }
{
    let Options {
        limit,
        detail,
        legacy,
        ..
    } = options;
    let languages = Languages { limit, detail, cpp };
    if legacy {
        return answer_as(alloc, Legacy { languages }, options, words, out, err);
    }
    answer_as(alloc, languages, options, words, out, err)
}

/// Writes the lines of words with a demangler, whose texts are made short if that is requested.
fn answer_as<D: Demangler + Copy + Drop, W: Sink, E: Sink>(
    alloc: Global,
    demangler: D,
    options: Options,
    words: &[&str],
    out: &mut W,
    err: &mut E,
) -> Result<u8, FilterFault>
    requires out_failures { W.failure_count out.old < 2 ^ 64 - 1 }
    requires err_failures { E.failure_count err.old < 2 ^ 64 - 1 }
    ensures ok { IfOk result (λ status. Took (W.taken out.old) (W.taken out.new) (E.taken err.old) (E.taken err.new)
        (AnswersWords options.asked (answers_as options.texts options.legacy (D.answer demangler)) (D.are_counts demangler) options.stats (map (λ word. word.now) words.now) status)) }
    ensures err { OnErr result (Took (W.taken out.old) (W.taken out.new) (E.taken err.old) (E.taken err.new)
        (AnswersFront options.asked (answers_as options.texts options.legacy (D.answer demangler)) (D.are_counts demangler) options.stats (map (λ word. word.now) words.now))) }
    ensures fault { IfErr result (λ fault. fault ≢ FilterFault.Read) }
    ensures failures { W.failure_count out.new + E.failure_count err.new
        ≡ W.failure_count out.old + E.failure_count err.old + writer_faults result }
{
    match options.texts {
        Texts::Whole => answer_words(alloc, &demangler, options, words, out, err),
        Texts::Short { keeps_inline } => {
            let short = Rewriting {
                demangler,
                rewrite: Shortening {
                    keeps_inline,
                    reads_paths: options.legacy,
                },
            };
            answer_words(alloc, &short, options, words, out, err)
        }
    }
}
