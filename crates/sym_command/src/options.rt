// The options of a command line, and its symbols.
ghost use Rattle.std.specs.Prelude.{◌≡◌, IfOk, false, map, codes};
ghost use Rattle.clap.specs.Words.{FailsBy, found_of, rows_of, matches_of, fault_of, app_of, rule_of, with_rule};
ghost use Rattle.sym_short.specs.Rewriting.{texts_by};
ghost use Rattle.sym_command.specs.CommandLine.{command_line, flag, limit, symbols, AreGiven, IsFlag, IsLimit, detail_by, letters_by, asked_by, symbols_of, filtering_by, with_short};

use crate::outcome::Filtering;
use clap::{Arg, ArgAction, ArgMatches, Command, Error};
use std::alloc::{AllocError, Global};
use sym_filter::Letters;
use sym_print::Detail;
use sym_short::{Texts, texts_of};

/// The greatest cost of a text, if no other limit is given.
const DEFAULT_LIMIT: u32 = 1_000_000;

const VERSION: &str =
    "0.1.0 (C++ by the Itanium ABI 5.1, Rust v0 by RFC 2603; proved with Rattle kit 13, logic dac8208d650f15bf)";

/// What help shows after the options.
const EXAMPLES: &str = "\
Examples:
  nm prog | symfilt        the names of a program
  symfilt < FILE           a file; no argument names one
  symfilt --brief _Z1fIiEvT_";

// What help says of the options that take no value.
const STATS: &str = "Show the rows, nodes and steps of each symbol";

const PRESS: &str =
    "Spell each symbol again with its repeated parts as references, in place of printing it";

const WIDE: &str = "Also read newer C++ forms (recommended)";

const LEGACY: &str =
    "Print Rust's older names, which look like C++ and end in a hash, as Rust paths";

const SHORT: &str =
    "Shorten C++ names: leave out what is the default in std, and its inline namespaces";

const KEEP_INLINE: &str = "With --short, keep inline namespaces, as in std::__1::vector";

const BRIEF: &str = "Leave out template and generic arguments";

const NO_PARAMS: &str = "Print each C++ function by its name, without return type and parameters";

const ASCII_WORDS: &str =
    "Let the words of standard input end at bytes that aren't ASCII, as at the quotes that compilers put around symbols";

/// What is requested for each symbol.
#[derive(Clone, Copy, Debug, PartialEq, Eq)]
pub enum Asked {
    /// Its text.
    Text,
    /// Its text, with C++ by the wide grammar.
    WideText,
    /// Its pressed spelling.
    Pressed,
    /// Its pressed spelling, with C++ by the wide grammar.
    WidePressed,
}

/// How symbols are answered.
#[derive(Clone, Copy, Debug, PartialEq, Eq)]
pub struct Options {
    pub limit: u32,
    pub detail: Detail,
    /// Which texts of C++ symbols are written. This has no effect on pressed spellings.
    pub texts: Texts,
    pub letters: Letters,
    pub stats: bool,
    pub asked: Asked,
    /// Whether legacy Rust names have the texts of their paths. This has no effect on pressed spellings.
    pub legacy: bool,
}

/// The options and symbols in the words of a command line of symfilt, the program's name first.
///
/// # Errors
///
/// What the parser says of words that it doesn't accept, of a request for help or the version, and of a lack of memory.
pub fn found_in<'a>(alloc: Global, words: &'a [&'a str]) -> Result<ArgMatches<'a>, Error>
    ensures found { IfOk result (λ matches. rows_of (found_of matches) ≡ matches_of command_line (map (λ word. word.now) words.entry.now)) }
    ensures fails { FailsBy (fault_of command_line (map (λ word. word.now) words.entry.now)) result }
{
    let command = command_line(alloc)?;
    command.try_get_matches_from(words)
}

/// The program's command line.
fn command_line<'a>(alloc: Global) -> Result<Command<'a>, AllocError>
    ensures { IfOk result (λ command. app_of command ≡ command_line) }
{
    let command = Command::new(alloc, "symfilt")
        .version(VERSION)
        .about("Prints C++ (Itanium ABI) and Rust (v0) symbols")
        .after_help(EXAMPLES);
    let command = with_answers(alloc, command)?;
    let command = with_grammars(alloc, command)?;
    let command = with_short(alloc, command)?;
    let command = with_details(alloc, command)?;
    command.arg(symbols(alloc))
}

/// A command line with the options that choose a symbol's answer.
fn with_answers<'a>(alloc: Global, command: Command<'a>) -> Result<Command<'a>, AllocError>
    ensures { IfOk result (λ with_them. app_of with_them
        ≡ with_rule (with_rule (with_rule (app_of command.entry) limit) (flag (codes "stats"))) (flag (codes "press"))) }
{
    let limited = command.arg(limit(alloc))?;
    let counted = with_flag(alloc, limited, "stats", STATS)?;
    with_flag(alloc, counted, "press", PRESS)
}

/// A command line with the options that decide how symbols are read.
fn with_grammars<'a>(alloc: Global, command: Command<'a>) -> Result<Command<'a>, AllocError>
    ensures { IfOk result (λ with_them. app_of with_them
        ≡ with_rule (with_rule (app_of command.entry) (flag (codes "wide"))) (flag (codes "legacy"))) }
{
    let wide = with_flag(alloc, command, "wide", WIDE)?;
    with_flag(alloc, wide, "legacy", LEGACY)
}

/// A command line with the options for short texts.
///
/// # Errors
///
/// `AllocError` where the list of options can't grow.
pub fn with_short<'a>(alloc: Global, command: Command<'a>) -> Result<Command<'a>, AllocError>
    ensures { IfOk result (λ with_them. app_of with_them ≡ with_short (app_of command.entry)) }
{
    let short = with_flag(alloc, command, "short", SHORT)?;
    with_flag(alloc, short, "keep-inline", KEEP_INLINE)
}

/// A command line with the options that decide how much of a text is shown, and which letters words have.
fn with_details<'a>(alloc: Global, command: Command<'a>) -> Result<Command<'a>, AllocError>
    ensures { IfOk result (λ with_them. app_of with_them
        ≡ with_rule (with_rule (with_rule (app_of command.entry) (flag (codes "brief"))) (flag (codes "no-params"))) (flag (codes "ascii-words"))) }
{
    let brief = with_flag(alloc, command, "brief", BRIEF)?;
    let named = with_flag(alloc, brief, "no-params", NO_PARAMS)?;
    with_flag(alloc, named, "ascii-words", ASCII_WORDS)
}

/// A command line with one more option, which takes no value.
///
/// # Errors
///
/// `AllocError` where the list of options can't grow.
pub fn with_flag<'a>(
    alloc: Global,
    command: Command<'a>,
    name: &'a str,
    help: &'a str,
) -> Result<Command<'a>, AllocError>
    ensures { IfOk result (λ with_it. app_of with_it ≡ with_rule (app_of command.entry) (flag name.entry.now)) }
{
    command.arg(flag(alloc, name).help(help))
}

/// An option that takes no value.
pub fn flag<'a>(alloc: Global, name: &'a str) -> Arg<'a>
    ensures rule { rule_of result ≡ flag name.entry.now }
    ensures local { result.global ≡ false }
{
    Arg::new(alloc, name).long(name).action(ArgAction::SetTrue)
}

/// The option that gives the limit.
pub fn limit<'a>(alloc: Global) -> Arg<'a>
    ensures rule { rule_of result ≡ limit }
    ensures local { result.global ≡ false }
{
    Arg::new(alloc, "limit")
        .long("limit")
        .value_name("N")
        .value_parser(clap::value_parser!(u32))
        .help(
            "The greatest cost of a text, 0 to 4294967295 [default: 1000000]. A text costs its bytes, and 1 for each item that it is put together from",
        )
}

/// The argument for symbols; there may be any number of them.
fn symbols<'a>(alloc: Global) -> Arg<'a>
    ensures rule { rule_of result ≡ symbols }
    ensures local { result.global ≡ false }
{
    Arg::new(alloc, "SYMBOL")
        .num_args(0..)
        .action(ArgAction::Append)
        .help("Symbols; with none, standard input is filtered")
}

/// The detail that two flags request.
pub fn detail_of(brief: bool, no_params: bool) -> Detail
    ensures { result ≡ detail_by brief no_params }
{
    match (brief, no_params) {
        (false, false) => Detail::Full,
        (true, false) => Detail::Brief,
        (false, true) => Detail::NoParameters,
        (true, true) => Detail::BriefNoParameters,
    }
}

/// Which letters words have, depending on a flag.
fn letters_of(ascii_words: bool) -> Letters
    ensures { result ≡ letters_by ascii_words }
{
    if ascii_words {
        return Letters::Ascii;
    }
    Letters::Any
}

/// What two flags request for each symbol.
fn asked_of(press: bool, wide: bool) -> Asked
    ensures { result ≡ asked_by press wide }
{
    match (press, wide) {
        (false, false) => Asked::Text,
        (false, true) => Asked::WideText,
        (true, false) => Asked::Pressed,
        (true, true) => Asked::WidePressed,
    }
}

/// The given limit.
pub fn limit_of(matches: &ArgMatches<'_>) -> u32
    ensures { IsLimit (rows_of (found_of matches.now)) result }
{
    matches.get_one::<u32>("limit").unwrap_or(DEFAULT_LIMIT)
}

/// Whether a flag is given.
pub fn has_flag(matches: &ArgMatches<'_>, name: &str) -> bool
    ensures { IsFlag (rows_of (found_of matches.now)) name.now result }
{
    matches.get_flag(name)
}

/// The options of a command line.
pub fn options_of(matches: &ArgMatches<'_>) -> Options
    ensures { AreGiven (rows_of (found_of matches.now)) result }
{
    let asked = asked_of(has_flag(matches, "press"), has_flag(matches, "wide"));
    Options {
        limit: limit_of(matches),
        detail: detail_of(has_flag(matches, "brief"), has_flag(matches, "no-params")),
        texts: texts_of(has_flag(matches, "short"), has_flag(matches, "keep-inline")),
        letters: letters_of(has_flag(matches, "ascii-words")),
        stats: has_flag(matches, "stats"),
        asked,
        legacy: has_flag(matches, "legacy"),
    }
}

/// The symbols of a command line.
pub fn symbols_of<'m, 'a>(matches: &'m ArgMatches<'a>) -> &'m [&'a str]
    ensures { map (λ symbol. symbol.now) result.now ≡ symbols_of (rows_of (found_of matches.now)) }
{
    matches.get_strs("SYMBOL").unwrap_or_default()
}

/// How the options request that an input is filtered; none where they request counts, which need a
/// symbol.
pub fn filtering_of(options: Options) -> Option<Filtering>
    ensures { result ≡ filtering_by options }
{
    let Options {
        limit,
        detail,
        texts,
        letters,
        stats,
        asked,
        legacy,
    } = options;
    if stats {
        return None;
    }
    Some(Filtering {
        limit,
        detail,
        texts,
        letters,
        asked,
        legacy,
    })
}
