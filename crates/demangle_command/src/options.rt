// The options of a command line, and its names.
ghost use Rattle.std.specs.Prelude.{◌≡◌, IfOk, false, map};
ghost use Rattle.clap.specs.Words.{FailsBy, found_of, rows_of, matches_of, fault_of, app_of, rule_of, with_rule};
ghost use Rattle.demangle_command.specs.CommandLine.{color_option, command_line, no_params, spelling_option, style_option, types, version_flag, version_option, taken_option, taken_options, name_arguments, with_reports, with_texts, AreOptions, IsAskedColoring, IsAskedSpelling, IsAskedStyle, name_texts};

use clap::{Arg, ArgAction, ArgMatches, Command, Error};
use demangle_names::{Coloring, Options, Spelling, Style, coloring_of, spelling_of, style_of};
use std::alloc::{AllocError, Global};
use sym_command::{detail_of, flag, has_flag, limit, limit_of, with_flag, with_short};
use sym_short::texts_of;

const VERSION: &str =
    "0.1.0 (C++ by the Itanium ABI 5.1, Rust v0 by RFC 2603, and legacy Rust names)";

/// What help shows before the options.
const ABOUT: &str = "\
Demangles C++ (Itanium ABI) and Rust (v0 and legacy) names.

Without names standard input is copied to standard output with each mangled name replaced.
A name that cannot be read is left as it is.";

const BRIEF: &str = "Leave out template and generic arguments";

const LIMIT: &str = "Longest text, about its bytes [default: 1000000]";

const ESCAPE: &str = "Escape \" and \\ in replaced text";

const JSON: &str = "Write an object of JSON for each name";

const WHY: &str = "Say on standard error why a name is left, and in which line";

const STRICT: &str = "Exit with status 1 if a name is left";

/// What help shows after the options.
const EXAMPLES: &str = "\
Accepted for compatibility with c++filt; they change nothing:
  -n, --no-strip-underscore   -_, --strip-underscore   -i, --no-verbose
  -r, --no-recurse-limit      -R, --recurse-limit

An argument @<file> is replaced by the words of the file.

Examples:
  nm prog | demangle
  demangle < crash.log
  make 2>&1 | demangle
  perf script --no-demangle | demangle --no-params --brief
  demangle _ZN3foo3barEi";

/// The options and names in the words of a command line; the first word is the program's name.
pub(crate) fn found_in<'a>(alloc: Global, words: &'a [&'a str]) -> Result<ArgMatches<'a>, Error>
    ensures found { IfOk result (λ matches. rows_of (found_of matches) ≡ matches_of command_line (map (λ word. word.now) words.entry.now)) }
    ensures fails { FailsBy (fault_of command_line (map (λ word. word.now) words.entry.now)) result }
{
    let command = command_line(alloc)?;
    command.try_get_matches_from(words)
}

/// The program's command line.
fn command_line<'a>(alloc: Global) -> Result<Command<'a>, AllocError>
    ensures { IfOk result (λ command. app_of command ≡ command_line) }
{
    let command = Command::new(alloc, "demangle")
        .version(VERSION)
        .disable_version_flag(true)
        .args_override_self(true)
        .about(ABOUT)
        .after_help(EXAMPLES);
    let command = with_texts(alloc, command)?;
    let command = with_reports(alloc, command)?;
    let command = with_version(alloc, command)?;
    let command = with_taken(alloc, command)?;
    command.arg(name_arguments(alloc))
}

/// A command line with the options that decide which names have a text, and what is shown of the text.
fn with_texts<'a>(alloc: Global, command: Command<'a>) -> Result<Command<'a>, AllocError>
    ensures { IfOk result (λ with_them. app_of with_them ≡ with_texts (app_of command.entry)) }
{
    let command = command.arg(no_params(alloc))?;
    let command = with_flag(alloc, command, "brief", BRIEF)?;
    let command = with_short(alloc, command)?;
    command
        .arg(types(alloc))?
        .arg(limit(alloc).help(LIMIT))?
        .arg(spelling_option(alloc))?
        .arg(style_option(alloc))
}

/// A command line with the options that decide how texts are written, and what is said of names without a text.
fn with_reports<'a>(alloc: Global, command: Command<'a>) -> Result<Command<'a>, AllocError>
    ensures { IfOk result (λ with_them. app_of with_them ≡ with_reports (app_of command.entry)) }
{
    let color = command.arg(color_option(alloc))?;
    let escape = with_flag(alloc, color, "escape", ESCAPE)?;
    let json = with_flag(alloc, escape, "json", JSON)?;
    let why = with_flag(alloc, json, "why", WHY)?;
    with_flag(alloc, why, "strict", STRICT)
}

/// A command line with the option for the version.
fn with_version<'a>(alloc: Global, command: Command<'a>) -> Result<Command<'a>, AllocError>
    ensures { IfOk result (λ with_it. app_of with_it ≡ with_rule (app_of command.entry) version_option) }
{
    let version = version_option(alloc)?;
    command.arg(version)
}

/// A command line with the options that are accepted and change nothing.
fn with_taken<'a>(alloc: Global, command: Command<'a>) -> Result<Command<'a>, AllocError>
    ensures { IfOk result (λ with_it. app_of with_it ≡ with_rule (app_of command.entry) taken_options) }
{
    let taken = taken_options(alloc)?;
    command.arg(taken)
}

/// The option by which C++ functions are shown only by their names.
fn no_params<'a>(alloc: Global) -> Arg<'a>
    ensures rule { rule_of result ≡ no_params }
    ensures local { result.global ≡ false }
{
    flag(alloc, "no-params")
        .short('p')
        .help("Print C++ functions without parameters and return types")
}

/// The option for types.
fn types<'a>(alloc: Global) -> Arg<'a>
    ensures rule { rule_of result ≡ types }
    ensures local { result.global ≡ false }
{
    flag(alloc, "types")
        .short('t')
        .help("Also demangle type names (`PKc`)")
}

/// The option that names a style.
fn style_option<'a>(alloc: Global) -> Arg<'a>
    ensures rule { rule_of result ≡ style_option }
    ensures local { result.global ≡ false }
{
    Arg::new(alloc, "format")
        .long("format")
        .short('s')
        .value_name("STYLE")
        .help("Which names: auto, gnu-v3, rust, none [default: auto]")
}

/// The option that names a spelling.
fn spelling_option<'a>(alloc: Global) -> Arg<'a>
    ensures rule { rule_of result ≡ spelling_option }
    ensures local { result.global ≡ false }
{
    Arg::new(alloc, "spelling")
        .long("spelling")
        .value_name("SPELLING")
        .help("How C++ names are spelled: plain, or gnu (as by c++filt) [default: plain]")
}

/// The option that names a colouring.
fn color_option<'a>(alloc: Global) -> Arg<'a>
    ensures rule { rule_of result ≡ color_option }
    ensures local { result.global ≡ false }
{
    Arg::new(alloc, "color")
        .long("color")
        .value_name("WHEN")
        .num_args(..=1)
        .default_missing_value("auto")
        .help("Tell parts of names apart: auto, always, never [default: never]")
}

/// The option for the version.
fn version_option<'a>(alloc: Global) -> Result<Arg<'a>, AllocError>
    ensures rule { IfOk result (λ version. rule_of version ≡ version_option) }
    ensures local { IfOk result (λ version. version.global ≡ false) }
{
    version_flag(alloc).short_alias('V')
}

/// The option for the version, by its first letter.
fn version_flag<'a>(alloc: Global) -> Arg<'a>
    ensures rule { rule_of result ≡ version_flag }
    ensures local { result.global ≡ false }
{
    Arg::new(alloc, "version")
        .long("version")
        .short('v')
        .action(ArgAction::Version)
        .help("Print version")
}

/// The options that are accepted and change nothing.
fn taken_options<'a>(alloc: Global) -> Result<Arg<'a>, AllocError>
    ensures rule { IfOk result (λ taken. rule_of taken ≡ taken_options) }
    ensures local { IfOk result (λ taken. taken.global ≡ false) }
{
    taken_option(alloc)
        .short_alias('_')?
        .short_alias('i')?
        .short_alias('r')?
        .short_alias('R')?
        .alias("strip-underscore")?
        .alias("no-verbose")?
        .alias("no-recurse-limit")?
        .alias("no-recursion-limit")?
        .alias("recurse-limit")?
        .alias("recursion-limit")
}

/// The first of the options that are accepted and change nothing.
fn taken_option<'a>(alloc: Global) -> Arg<'a>
    ensures rule { rule_of result ≡ taken_option }
    ensures local { result.global ≡ false }
{
    flag(alloc, "no-strip-underscore").short('n').hide(true)
}

/// The argument for any number of names.
fn name_arguments<'a>(alloc: Global) -> Arg<'a>
    ensures rule { rule_of result ≡ name_arguments }
    ensures local { result.global ≡ false }
{
    Arg::new(alloc, "NAME")
        .num_args(0..)
        .action(ArgAction::Append)
        .help("Names; with none, standard input is filtered")
}

/// The style that is requested; none where no style has the name that is given.
pub(crate) fn asked_style(matches: &ArgMatches<'_>) -> Option<Style>
    ensures { IsAskedStyle (rows_of (found_of matches.now)) result }
{
    match matches.get_str("format") {
        None => Some(Style::Auto),
        Some(name) => style_of(name),
    }
}

/// The spelling that is requested; none where no spelling has the name that is given.
pub(crate) fn asked_spelling(matches: &ArgMatches<'_>) -> Option<Spelling>
    ensures { IsAskedSpelling (rows_of (found_of matches.now)) result }
{
    match matches.get_str("spelling") {
        None => Some(Spelling::Plain),
        Some(name) => spelling_of(name),
    }
}

/// The colouring that is requested; none where no colouring has the name that is given.
fn asked_coloring(matches: &ArgMatches<'_>) -> Option<Coloring>
    ensures { IsAskedColoring (rows_of (found_of matches.now)) result }
{
    match matches.get_str("color") {
        None => Some(Coloring::Never),
        Some(name) => coloring_of(name),
    }
}

/// The options of a command line; `terminal` says whether its texts are written to a terminal. None where no style, spelling or colouring has the given name.
pub(crate) fn options_of(matches: &ArgMatches<'_>, terminal: bool) -> Option<Options>
    ensures { AreOptions (rows_of (found_of matches.now)) terminal result }
{
    let style = asked_style(matches)?;
    let spelling = asked_spelling(matches)?;
    let coloring = asked_coloring(matches)?;
    Some(Options {
        limit: limit_of(matches),
        detail: detail_of(has_flag(matches, "brief"), has_flag(matches, "no-params")),
        style,
        texts: texts_of(has_flag(matches, "short"), has_flag(matches, "keep-inline")),
        spelling,
        colors: coloring.colors(terminal),
        escape: has_flag(matches, "escape"),
        json: has_flag(matches, "json"),
        types: has_flag(matches, "types"),
        why: has_flag(matches, "why"),
        strict: has_flag(matches, "strict"),
    })
}

/// The names of a command line, as texts of its parser.
pub(crate) fn names_of<'m, 'a>(matches: &'m ArgMatches<'a>) -> &'m [&'a str]
    ensures { map (λ name. name.now) result.now ≡ name_texts (rows_of (found_of matches.now)) }
{
    matches.get_strs("NAME").unwrap_or_default()
}
