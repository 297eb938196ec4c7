// The command line.
ghost use Rattle.std.specs.Prelude.{◌≡◌, ◌≢◌, ◌⊎◌, ◌+◌, ◌-◌, ◌^◌, ◌<◌, [], not, ◌==◌, IfOk, OnOk, OnErr, IfErr, map, false, true};
ghost use Rattle.std.specs.Io.KnownBytes.{Appends};
ghost use Rattle.clap.specs.Words.{found_of, kind_of, rows_of};
ghost use Rattle.clap.specs.declared.error.kind.ErrorKind.{ErrorKind as ErrorKind-type};
ghost use Rattle.sym_filter.specs.Streams.{PutsFront, reader_faults, writer_faults};
ghost use Rattle.sym_command.specs.Command.{Took, Says};
ghost use Rattle.demangle_command.specs.Command.{ByObjects, ByObjectsFront, are_whole, details_of, shown_of, shows_colors, unescaped_of, unspelled_details, unspelled_of, Ends, Stops, EndsOf, StopsOf, FiltersInput, FiltersInputFront, IsTold, TellsInput, TellsInputFront, is_request, summary_if};
ghost use Rattle.demangle_command.specs.CommandLine.{AreGiven};
ghost use Rattle.demangle_command.specs.Texts.{bytes_of, texts_of};
ghost use Rattle.demangle_names.specs.Names.{status_of};
ghost use Rattle.demangle_names.specs.Spelling.{is_gnu};

use crate::complaints::{coloring_complaint, complaint, spelling_complaint, style_complaint};
use crate::escaping::Escaping;
use crate::options::{asked_spelling, asked_style, found_in, names_of, options_of};
use crate::styled::Styled;
use crate::texts::{lent_texts, lent_words, texts_of, words_of};
use clap::error::ErrorKind;
use clap::{ArgMatches, Error};
use demangle_names::{DONE, Options, Reasons, Spelling, WordReport, answer_names, status_of};
use json_lines::{answer_objects, tell_objects};
use std::alloc::{AllocError, Global};
use sym_command::WRONG_USE;
use sym_filter::{
    Demangler, FilterFault, Letters, Sink, Source, Tally, filter_telling, filter_words, write_all,
};
use sym_languages::{Languages, Wide};
use sym_recent::{Alike, Recent};
use sym_short::{Gnu, Rewriting, Shortening, Texts};
use text_colours::Coloring;
use text_details::Detailed;

/// Runs the program over an input and two outputs: writes the line of each name with its symbols replaced, or filters the input, if there
/// is no name. The words are those of the command line, the program's name first; each may have any bytes. Whether the first output is a
/// terminal matters only for `--color=auto`. The result is the status.
///
/// # Errors
///
/// `Read` and `Write` where a stream failed, and `Memory`. The bytes written are a beginning of those that a run without faults writes.
pub fn run_over<S: Source, W: Sink, E: Sink>(
    alloc: Global,
    words: &[&[u8]],
    terminal: bool,
    input: &mut S,
    out: &mut W,
    err: &mut E,
) -> Result<u8, FilterFault>
    requires in_failures { S.failure_count input.old < 2 ^ 64 - 1 }
    requires out_failures { W.failure_count out.old < 2 ^ 64 - 1 }
    requires err_failures { E.failure_count err.old < 2 ^ 64 - 1 }
    ensures ok { IfOk result (Ends (texts_of (map (λ word. word.now) words.now)) terminal (S.coming input.old) (S.coming input.new)
        (W.taken out.old) (W.taken out.new) (E.taken err.old) (E.taken err.new)) }
    ensures err { OnErr result (Stops (texts_of (map (λ word. word.now) words.now)) terminal (S.coming input.old) (S.coming input.new)
        (W.taken out.old) (W.taken out.new) (E.taken err.old) (E.taken err.new)) }
    ensures read_failed { S.failure_count input.new ≡ S.failure_count input.old + reader_faults result }
    ensures write_failed { W.failure_count out.new + E.failure_count err.new
        ≡ W.failure_count out.old + E.failure_count err.old + writer_faults result }
{
    let texts = texts_of(alloc, words)?;
    let lent = lent_texts(alloc, &texts)?;
    match run_texts(alloc, &lent, terminal, input, out, err) {
        Ok(status) => Ok(status),
        Err(fault) => Err(fault),
    }
}

/// Runs the program on the texts that its parser is given for words.
fn run_texts<S: Source, W: Sink, E: Sink>(
    alloc: Global,
    texts: &[&str],
    terminal: bool,
    input: &mut S,
    out: &mut W,
    err: &mut E,
) -> Result<u8, FilterFault>
    requires in_failures { S.failure_count input.old < 2 ^ 64 - 1 }
    requires out_failures { W.failure_count out.old < 2 ^ 64 - 1 }
    requires err_failures { E.failure_count err.old < 2 ^ 64 - 1 }
    ensures ok { IfOk result (Ends (map (λ text. text.now) texts.now) terminal (S.coming input.old) (S.coming input.new)
        (W.taken out.old) (W.taken out.new) (E.taken err.old) (E.taken err.new)) }
    ensures err { OnErr result (Stops (map (λ text. text.now) texts.now) terminal (S.coming input.old) (S.coming input.new)
        (W.taken out.old) (W.taken out.new) (E.taken err.old) (E.taken err.new)) }
    ensures read_failed { S.failure_count input.new ≡ S.failure_count input.old + reader_faults result }
    ensures write_failed { W.failure_count out.new + E.failure_count err.new
        ≡ W.failure_count out.old + E.failure_count err.old + writer_faults result }
{
    match found_in(alloc, texts) {
        Ok(matches) => run_found(alloc, &matches, terminal, input, out, err),
        Err(error) => tell(alloc, &error, texts, out, err),
    }
}

/// Whether an error is a request for help or the version.
fn is_request(kind: ErrorKind) -> bool
    ensures { result ≡ is_request kind }
{
    match kind {
        ErrorKind::DisplayHelp => true,
        ErrorKind::DisplayVersion => true,
        _ => false,
    }
}

/// Writes what the command line's parser says of an error, or the requested help or version, and answers the status.
fn tell<W: Sink, E: Sink>(
    alloc: Global,
    error: &Error,
    texts: &[&str],
    out: &mut W,
    err: &mut E,
) -> Result<u8, FilterFault>
    requires out_failures { W.failure_count out.old < 2 ^ 64 - 1 }
    requires err_failures { E.failure_count err.old < 2 ^ 64 - 1 }
    ensures known { OnOk result (kind_of error.now ≢ ErrorKind-type.OutOfMemory) }
    ensures ok { IfOk result (λ status. Took (W.taken out.old) (W.taken out.new) (E.taken err.old) (E.taken err.new)
        (IsTold (is_request (kind_of error.now)) status)) }
    ensures err { OnErr result (Took (W.taken out.old) (W.taken out.new) (E.taken err.old) (E.taken err.new)
        (λ lines said. (kind_of error.now ≢ ErrorKind-type.OutOfMemory) ⊎ ((lines ≡ []) × (said ≡ [])))) }
    ensures fault { IfErr result (λ fault. fault ≢ FilterFault.Read) }
    ensures failures { W.failure_count out.new + E.failure_count err.new
        ≡ W.failure_count out.old + E.failure_count err.old + writer_faults result }
{
    if error.kind() == ErrorKind::OutOfMemory {
        return Err(FilterFault::Memory);
    }
    if is_request(error.kind()) {
        let text = format!(in alloc; "{error}")?;
        return end_with(out, text.as_bytes(), DONE);
    }
    let line = complaint(alloc, error.kind(), texts)?;
    end_with(err, &line, WRONG_USE)
}

/// Writes a text as the only output, and answers the status.
fn end_with<S: Sink>(sink: &mut S, text: &[u8], status: u8) -> Result<u8, FilterFault>
    requires { S.failure_count sink.old < 2 ^ 64 - 1 }
    ensures says { Says (S.taken sink.old) (S.taken sink.new) }
    ensures status { IfOk result (λ ended. ended ≡ status) }
    ensures fault { IfErr result (λ fault. fault ≢ FilterFault.Read) }
    ensures failures { S.failure_count sink.new ≡ S.failure_count sink.old + writer_faults result }
{
    match write_all(sink, text) {
        Ok(()) => Ok(status),
        Err(fault) => Err(fault),
    }
}

/// Does what the command line's parser found.
fn run_found<S: Source, W: Sink, E: Sink>(
    alloc: Global,
    matches: &ArgMatches<'_>,
    terminal: bool,
    input: &mut S,
    out: &mut W,
    err: &mut E,
) -> Result<u8, FilterFault>
    requires in_failures { S.failure_count input.old < 2 ^ 64 - 1 }
    requires out_failures { W.failure_count out.old < 2 ^ 64 - 1 }
    requires err_failures { E.failure_count err.old < 2 ^ 64 - 1 }
    ensures ok { IfOk result (EndsOf (rows_of (found_of matches.now)) terminal (S.coming input.old) (S.coming input.new)
        (W.taken out.old) (W.taken out.new) (E.taken err.old) (E.taken err.new)) }
    ensures err { OnErr result (StopsOf (rows_of (found_of matches.now)) terminal (S.coming input.old) (S.coming input.new)
        (W.taken out.old) (W.taken out.new) (E.taken err.old) (E.taken err.new)) }
    ensures read_failed { S.failure_count input.new ≡ S.failure_count input.old + reader_faults result }
    ensures write_failed { W.failure_count out.new + E.failure_count err.new
        ≡ W.failure_count out.old + E.failure_count err.old + writer_faults result }
{
    let Some(options) = options_of(matches, terminal) else {
        return refuse_options(alloc, matches, err);
    };
    let styled = styled_of(options);
    if shows_colors(options) {
        let colored = Rewriting {
            demangler: styled,
            rewrite: Coloring { known: styled },
        };
        return run_lines(alloc, colored, options, matches, terminal, input, out, err);
    }
    match options.texts {
        Texts::Whole => run_spelled(alloc, styled, options, matches, terminal, input, out, err),
        Texts::Short { keeps_inline } => {
            let short = Rewriting {
                demangler: styled,
                rewrite: Shortening {
                    keeps_inline,
                    reads_paths: options.style.reads_paths(),
                },
            };
            run_spelled(alloc, short, options, matches, terminal, input, out, err)
        }
    }
}

/// Whether texts are coloured.
fn shows_colors(options: Options) -> bool
    ensures { result ≡ shows_colors options }
{
    let Options {
        colors,
        texts,
        spelling,
        escape,
        json,
        ..
    } = options;
    colors && (are_whole(texts) && (!is_gnu(spelling) && (!escape && !json)))
}

/// Whether texts are whole.
fn are_whole(texts: Texts) -> bool
    ensures { result ≡ are_whole texts }
{
    match texts {
        Texts::Whole => true,
        Texts::Short { .. } => false,
    }
}

/// Whether texts are spelled as GNU's demangler spells them.
fn is_gnu(spelling: Spelling) -> bool
    ensures { result ≡ is_gnu spelling }
{
    match spelling {
        Spelling::Plain => false,
        Spelling::Gnu => true,
    }
}

/// Does what the command line's parser found, with a demangler that follows all options except those for spellings and escapes.
fn run_spelled<D: Alike + Detailed + Copy + Drop, S: Source, W: Sink, E: Sink>(
    alloc: Global,
    demangler: D,
    options: Options,
    matches: &ArgMatches<'_>,
    terminal: bool,
    input: &mut S,
    out: &mut W,
    err: &mut E,
) -> Result<u8, FilterFault>
    requires in_failures { S.failure_count input.old < 2 ^ 64 - 1 }
    requires out_failures { W.failure_count out.old < 2 ^ 64 - 1 }
    requires err_failures { E.failure_count err.old < 2 ^ 64 - 1 }
    requires given { AreGiven (rows_of (found_of matches.now)) terminal options }
    requires uncolored { shows_colors options ≡ false }
    requires texts { D.answer demangler ≡ unspelled_of options }
    requires details { D.details demangler ≡ unspelled_details options }
    ensures ok { IfOk result (EndsOf (rows_of (found_of matches.now)) terminal (S.coming input.old) (S.coming input.new)
        (W.taken out.old) (W.taken out.new) (E.taken err.old) (E.taken err.new)) }
    ensures err { OnErr result (StopsOf (rows_of (found_of matches.now)) terminal (S.coming input.old) (S.coming input.new)
        (W.taken out.old) (W.taken out.new) (E.taken err.old) (E.taken err.new)) }
    ensures read_failed { S.failure_count input.new ≡ S.failure_count input.old + reader_faults result }
    ensures write_failed { W.failure_count out.new + E.failure_count err.new
        ≡ W.failure_count out.old + E.failure_count err.old + writer_faults result }
{
    match options.spelling {
        Spelling::Plain => run_with(
            alloc, demangler, options, matches, terminal, input, out, err,
        ),
        Spelling::Gnu => {
            let spelled = Rewriting {
                demangler,
                rewrite: Gnu {
                    reads_paths: options.style.reads_paths(),
                },
            };
            run_with(alloc, spelled, options, matches, terminal, input, out, err)
        }
    }
}

/// The demangler of whole texts for these options.
fn styled_of(options: Options) -> Styled
    ensures style { result.style ≡ options.style }
    ensures limit { result.languages.limit ≡ options.limit }
    ensures detail { result.languages.detail ≡ options.detail }
{
    let Options {
        limit,
        detail,
        style,
        ..
    } = options;
    let languages = Languages {
        limit,
        detail,
        cpp: Wide,
    };
    Styled { style, languages }
}

/// Does what the command line's parser found, with a demangler that follows all options except the one for escapes.
fn run_with<D: Alike + Detailed + Copy + Drop, S: Source, W: Sink, E: Sink>(
    alloc: Global,
    demangler: D,
    options: Options,
    matches: &ArgMatches<'_>,
    terminal: bool,
    input: &mut S,
    out: &mut W,
    err: &mut E,
) -> Result<u8, FilterFault>
    requires in_failures { S.failure_count input.old < 2 ^ 64 - 1 }
    requires out_failures { W.failure_count out.old < 2 ^ 64 - 1 }
    requires err_failures { E.failure_count err.old < 2 ^ 64 - 1 }
    requires given { AreGiven (rows_of (found_of matches.now)) terminal options }
    requires uncolored { shows_colors options ≡ false }
    requires texts { D.answer demangler ≡ unescaped_of options }
    requires details { D.details demangler ≡ details_of options }
    ensures ok { IfOk result (EndsOf (rows_of (found_of matches.now)) terminal (S.coming input.old) (S.coming input.new)
        (W.taken out.old) (W.taken out.new) (E.taken err.old) (E.taken err.new)) }
    ensures err { OnErr result (StopsOf (rows_of (found_of matches.now)) terminal (S.coming input.old) (S.coming input.new)
        (W.taken out.old) (W.taken out.new) (E.taken err.old) (E.taken err.new)) }
    ensures read_failed { S.failure_count input.new ≡ S.failure_count input.old + reader_faults result }
    ensures write_failed { W.failure_count out.new + E.failure_count err.new
        ≡ W.failure_count out.old + E.failure_count err.old + writer_faults result }
{
    if options.json {
        return write_objects(alloc, &demangler, options, names_of(matches), input, out);
    }
    run_lines(
        alloc, demangler, options, matches, terminal, input, out, err,
    )
}

/// Does what the command line's parser found, if objects aren't requested, with a demangler that follows all options except the one for
/// escapes.
fn run_lines<D: Alike + Copy + Drop, S: Source, W: Sink, E: Sink>(
    alloc: Global,
    demangler: D,
    options: Options,
    matches: &ArgMatches<'_>,
    terminal: bool,
    input: &mut S,
    out: &mut W,
    err: &mut E,
) -> Result<u8, FilterFault>
    requires in_failures { S.failure_count input.old < 2 ^ 64 - 1 }
    requires out_failures { W.failure_count out.old < 2 ^ 64 - 1 }
    requires err_failures { E.failure_count err.old < 2 ^ 64 - 1 }
    requires given { AreGiven (rows_of (found_of matches.now)) terminal options }
    requires no_objects { options.json ≡ false }
    requires texts { D.answer demangler ≡ shown_of options }
    ensures ok { IfOk result (EndsOf (rows_of (found_of matches.now)) terminal (S.coming input.old) (S.coming input.new)
        (W.taken out.old) (W.taken out.new) (E.taken err.old) (E.taken err.new)) }
    ensures err { OnErr result (StopsOf (rows_of (found_of matches.now)) terminal (S.coming input.old) (S.coming input.new)
        (W.taken out.old) (W.taken out.new) (E.taken err.old) (E.taken err.new)) }
    ensures read_failed { S.failure_count input.new ≡ S.failure_count input.old + reader_faults result }
    ensures write_failed { W.failure_count out.new + E.failure_count err.new
        ≡ W.failure_count out.old + E.failure_count err.old + writer_faults result }
{
    let texts = names_of(matches);
    let escaping = Rewriting {
        demangler,
        rewrite: Escaping {
            escapes: options.escape,
        },
    };
    if texts.is_empty() {
        let recent = Recent {
            demangler: escaping,
        };
        return match filter_input(alloc, &recent, options, input, out, err) {
            Ok(status) => Ok(status),
            Err(fault) => Err(fault),
        };
    }
    let names = words_of(alloc, texts)?;
    let lent = lent_words(alloc, &names)?;
    match answer_names(alloc, &escaping, options, &lent, out, err) {
        Ok(one_stays) => Ok(status_of(options.strict, one_stays)),
        Err(fault) => Err(fault),
    }
}

/// Writes the objects of names, or of the input's words where there is no name, and answers the status.
fn write_objects<D: Detailed, S: Source, W: Sink>(
    alloc: Global,
    demangler: &D,
    options: Options,
    texts: &[&str],
    input: &mut S,
    out: &mut W,
) -> Result<u8, FilterFault>
    requires in_failures { S.failure_count input.old < 2 ^ 64 - 1 }
    requires out_failures { W.failure_count out.old < 2 ^ 64 - 1 }
    ensures ok { IfOk result (ByObjects (D.answer demangler.now) (D.details demangler.now) options (map bytes_of (map (λ text. text.now) texts.now))
        (S.coming input.old) (S.coming input.new) (W.taken out.old) (W.taken out.new)) }
    ensures err { OnErr result (ByObjectsFront (D.answer demangler.now) (D.details demangler.now) options (map bytes_of (map (λ text. text.now) texts.now))
        (S.coming input.old) (S.coming input.new) (W.taken out.old) (W.taken out.new)) }
    ensures read_failed { S.failure_count input.new ≡ S.failure_count input.old + reader_faults result }
    ensures write_failed { W.failure_count out.new ≡ W.failure_count out.old + writer_faults result }
{
    if texts.is_empty() {
        return match tell_objects(alloc, demangler, options.style.reads_paths(), input, out) {
            Ok(one_stays) => Ok(status_of(options.strict, one_stays)),
            Err(fault) => Err(fault),
        };
    }
    let names = words_of(alloc, texts)?;
    let lent = lent_words(alloc, &names)?;
    match answer_objects(alloc, demangler, options, &lent, out) {
        Ok(one_stays) => Ok(status_of(options.strict, one_stays)),
        Err(fault) => Err(fault),
    }
}

/// Says that no style, no spelling or no colouring has the name that is given.
fn refuse_options<E: Sink>(
    alloc: Global,
    matches: &ArgMatches<'_>,
    err: &mut E,
) -> Result<u8, FilterFault>
    requires err_failures { E.failure_count err.old < 2 ^ 64 - 1 }
    ensures says { Says (E.taken err.old) (E.taken err.new) }
    ensures wrong_use { IfOk result (λ status. status ≡ 2) }
    ensures fault { IfErr result (λ fault. fault ≢ FilterFault.Read) }
    ensures failures { E.failure_count err.new ≡ E.failure_count err.old + writer_faults result }
{
    let line = refusal_line(alloc, matches)?;
    end_with(err, &line, WRONG_USE)
}

/// The line that says that no style, no spelling or no colouring has the given name.
fn refusal_line(alloc: Global, matches: &ArgMatches<'_>) -> Result<Vec<u8>, AllocError> {
    if asked_style(matches).is_none() {
        return style_complaint(alloc, matches.get_str("format").unwrap_or_default());
    }
    if asked_spelling(matches).is_none() {
        return spelling_complaint(alloc, matches.get_str("spelling").unwrap_or_default());
    }
    coloring_complaint(alloc, matches.get_str("color").unwrap_or_default())
}

/// Filters an input, says how much of it stays, if that is requested, and answers the status.
fn filter_input<D: Demangler, S: Source, W: Sink, E: Sink>(
    alloc: Global,
    demangler: &D,
    options: Options,
    input: &mut S,
    out: &mut W,
    err: &mut E,
) -> Result<u8, FilterFault>
    requires in_failures { S.failure_count input.old < 2 ^ 64 - 1 }
    requires out_failures { W.failure_count out.old < 2 ^ 64 - 1 }
    requires err_failures { E.failure_count err.old < 2 ^ 64 - 1 }
    ensures ok { IfOk result (FiltersInput (D.answer demangler.now) options.why options.strict (S.coming input.old) (S.coming input.new)
        (W.taken out.old) (W.taken out.new) (E.taken err.old) (E.taken err.new)) }
    ensures err { OnErr result (FiltersInputFront (D.answer demangler.now) options.why (S.coming input.old) (S.coming input.new)
        (W.taken out.old) (W.taken out.new) (E.taken err.old) (E.taken err.new)) }
    ensures read_failed { S.failure_count input.new ≡ S.failure_count input.old + reader_faults result }
    ensures write_failed { W.failure_count out.new + E.failure_count err.new
        ≡ W.failure_count out.old + E.failure_count err.old + writer_faults result }
{
    let tally = match filter_by(alloc, demangler, options.why, input, out, err) {
        Ok(tally) => tally,
        Err(fault) => return Err(fault),
    };
    match say_summary(alloc, options.why, tally, err) {
        Ok(()) => Ok(status_of(options.strict, tally.refused != 0)),
        Err(fault) => Err(fault),
    }
}

/// Filters an input, and says the line and the reason of each word that stays, if requested.
fn filter_by<D: Demangler, S: Source, W: Sink, E: Sink>(
    alloc: Global,
    demangler: &D,
    why: bool,
    input: &mut S,
    out: &mut W,
    err: &mut E,
) -> Result<Tally, FilterFault>
    requires in_failures { S.failure_count input.old < 2 ^ 64 - 1 }
    requires out_failures { W.failure_count out.old < 2 ^ 64 - 1 }
    requires err_failures { E.failure_count err.old < 2 ^ 64 - 1 }
    ensures ok { IfOk result (λ tally. TellsInput (D.answer demangler.now) why (S.coming input.old) (S.coming input.new)
        (W.taken out.old) (W.taken out.new) (E.taken err.old) (E.taken err.new) tally) }
    ensures err { OnErr result (TellsInputFront (D.answer demangler.now) why (S.coming input.old) (S.coming input.new)
        (W.taken out.old) (W.taken out.new) (E.taken err.old) (E.taken err.new)) }
    ensures err_failures { OnOk result (E.failure_count err.new ≡ E.failure_count err.old) }
    ensures read_failed { S.failure_count input.new ≡ S.failure_count input.old + reader_faults result }
    ensures write_failed { W.failure_count out.new + E.failure_count err.new
        ≡ W.failure_count out.old + E.failure_count err.old + writer_faults result }
{
    if why {
        return filter_saying(alloc, demangler, input, out, err);
    }
    filter_words(alloc, input, out, demangler, Letters::Within)
}

/// Filters an input, and says the line and the reason of each word that stays.
fn filter_saying<D: Demangler, S: Source, W: Sink, E: Sink>(
    alloc: Global,
    demangler: &D,
    input: &mut S,
    out: &mut W,
    err: &mut E,
) -> Result<Tally, FilterFault>
    requires in_failures { S.failure_count input.old < 2 ^ 64 - 1 }
    requires out_failures { W.failure_count out.old < 2 ^ 64 - 1 }
    requires err_failures { E.failure_count err.old < 2 ^ 64 - 1 }
    ensures ok { IfOk result (λ tally. TellsInput (D.answer demangler.now) true (S.coming input.old) (S.coming input.new)
        (W.taken out.old) (W.taken out.new) (E.taken err.old) (E.taken err.new) tally) }
    ensures err { OnErr result (TellsInputFront (D.answer demangler.now) true (S.coming input.old) (S.coming input.new)
        (W.taken out.old) (W.taken out.new) (E.taken err.old) (E.taken err.new)) }
    ensures err_failures { OnOk result (E.failure_count err.new ≡ E.failure_count err.old) }
    ensures read_failed { S.failure_count input.new ≡ S.failure_count input.old + reader_faults result }
    ensures write_failed { W.failure_count out.new + E.failure_count err.new
        ≡ W.failure_count out.old + E.failure_count err.old + writer_faults result }
{
    let reasons = Reasons { demangler };
    let mut report = WordReport::new(alloc, &reasons, err);
    filter_telling(alloc, input, out, demangler, Letters::Within, &mut report)
}

/// Says how many symbols of an input stay, if that is requested.
fn say_summary<E: Sink>(
    alloc: Global,
    asked: bool,
    tally: Tally,
    err: &mut E,
) -> Result<(), FilterFault>
    requires err_failures { E.failure_count err.old < 2 ^ 64 - 1 }
    ensures ok { OnOk result (Appends (E.taken err.old) (E.taken err.new) (summary_if asked tally)) }
    ensures err { OnErr result (PutsFront (E.taken err.old) (E.taken err.new) [] (summary_if asked tally)) }
    ensures fault { IfErr result (λ fault. fault ≢ FilterFault.Read) }
    ensures failures { E.failure_count err.new ≡ E.failure_count err.old + writer_faults result }
{
    if !asked {
        return Ok(());
    }
    let Tally { words, refused, .. } = tally;
    let line = format!(in alloc; "demangle: {refused} of {words} symbols stay\n")?;
    match write_all(err, line.as_bytes()) {
        Ok(()) => Ok(()),
        Err(fault) => Err(fault),
    }
}
