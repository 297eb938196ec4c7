// The text of one name, or its pressed spelling.
ghost use Rattle.std.specs.Prelude.{◌≡◌, ◌≤◌, List, ℕ, None, length, true};
ghost use Rattle.std.specs.Option.{IfSome};
ghost use Rattle.sym_core.specs.Number.{FitsSymbol};
ghost use Rattle.sym_demangle.specs.Mangled.{answer};
ghost use Rattle.sym_filter.specs.declared.kinds.TheConstants.{LONGEST_WORD};
ghost use Rattle.sym_languages.specs.Languages.{answers_by, language_answer_by};
ghost use Rattle.sym_short.specs.Rewriting.{answers_as, short_answers};
ghost use Rattle.type_names.specs.Types.{type_answer};
ghost use Rattle.sym_calls.specs.Calls.{EndsAs, IsTextWritten, PressEndsAs, answered, asked_of, ending_of, name_or_type_told, name_told, press_told, text_told};

use crate::flags::{Asked, asked_of};
use crate::outcome::{FLAGS, Outcome, alone, no_memory, of_refusal, unspelled, write};
use rust_v0::V0;
use std::alloc::Global;
use sym_core::Refusal;
use sym_demangle::Mangling;
use sym_filter::{Demangled, Demangler, Kind, Lang};
use sym_languages::languages::{Cpp, with_parameters};
use sym_languages::{Abi, Languages, Legacy, Pressing, Wide, WidePressing, may_be_legacy};
use sym_print::Detail;
use sym_short::{Rewriting, Shortening, Texts};
use type_names::append_type;

/// Writes the text of a symbol to the front of the buffer, with lists that are kept for the next symbol.
fn symbol_with<D: Demangler>(
    demangler: &D,
    lists: &mut D::Lists,
    text: &mut Vec<u8>,
    kind: Kind,
    symbol: &[u8],
    buffer: &mut [u8],
) -> Outcome
    requires { FitsSymbol symbol.now }
    ensures { EndsAs (answered (D.answer demangler.now kind symbol.now) kind.skip buffer.old) buffer.old (ending_of result buffer.new) }
{
    text.clear();
    match demangler.append(lists, kind, symbol, text) {
        Ok(()) => write(text, buffer),
        Err(refusal) => of_refusal(refusal, kind.skip, buffer),
    }
}

/// Writes the text of a name's symbol to the front of the buffer, with lists that are kept for the next name.
pub(crate) fn name_with<D: Demangler>(
    demangler: &D,
    lists: &mut D::Lists,
    text: &mut Vec<u8>,
    asked: Asked,
    name: &[u8],
    buffer: &mut [u8],
) -> Outcome
    ensures { EndsAs (name_told (D.answer demangler.now) asked name.now buffer.old) buffer.old (ending_of result buffer.new) }
{
    match asked.named(name) {
        Ok(kind) => {
            let symbol = &name[kind.skip as usize..];
            symbol_with(demangler, lists, text, kind, symbol, buffer)
        }
        Err(status) => alone(status),
    }
}

/// Writes the text of a name's symbol to the front of the buffer, with lists of its own.
fn name_by<D: Demangler>(
    alloc: Global,
    demangler: &D,
    asked: Asked,
    name: &[u8],
    buffer: &mut [u8],
) -> Outcome
    ensures { EndsAs (name_told (D.answer demangler.now) asked name.now buffer.old) buffer.old (ending_of result buffer.new) }
{
    let kind = match asked.named(name) {
        Ok(kind) => kind,
        Err(status) => return alone(status),
    };
    let mut lists = match demangler.lists(alloc) {
        Ok(lists) => lists,
        Err(_) => return no_memory(),
    };
    let mut text = Vec::new(alloc);
    let symbol = &name[kind.skip as usize..];
    symbol_with(demangler, &mut lists, &mut text, kind, symbol, buffer)
}

/// Writes the text of a symbol to the front of the buffer with only the lists of the short way, if the symbol goes that way and
/// its text costs at most the limit.
fn write_short<M: Mangling>(
    alloc: Global,
    symbol: &[u8],
    limit: u32,
    detail: Detail,
    buffer: &mut [u8],
) -> Option<Outcome>
    requires { FitsSymbol symbol.now }
    ensures told { IfSome result (λ outcome. IsTextWritten (answer M.mangled detail symbol.now limit) buffer.old (ending_of outcome buffer.new)) }
    ensures same { result ≡ None → buffer.new ≡ buffer.old }
{
    let mut direct = M::direct(alloc);
    if !M::write(&mut direct, symbol, limit, detail) {
        return None;
    }
    Some(write(M::text(&direct), buffer))
}

/// Writes the text of a symbol of either language by the short way. A Rust symbol has no
/// parameters.
fn short_once<C: Cpp>(
    alloc: Global,
    languages: &Languages<C>,
    kind: Kind,
    symbol: &[u8],
    buffer: &mut [u8],
) -> Option<Outcome>
    requires { FitsSymbol symbol.now }
    ensures told { IfSome result (λ outcome. IsTextWritten (language_answer_by C.mangled languages.now.limit languages.now.detail kind.lang symbol.now) buffer.old (ending_of outcome buffer.new)) }
    ensures same { result ≡ None → buffer.new ≡ buffer.old }
{
    match kind.lang {
        Lang::Cpp => { write_short::<C>(alloc, symbol, languages.limit, languages.detail, buffer) }
        Lang::Rust => {
            let detail = with_parameters(languages.detail);
            write_short::<V0>(alloc, symbol, languages.limit, detail, buffer)
        }
    }
}

/// Writes the text of a symbol, which is read into rows and nodes, to the front of the buffer.
fn symbol_by_rows<D: Demangler>(
    alloc: Global,
    demangler: &D,
    kind: Kind,
    symbol: &[u8],
    buffer: &mut [u8],
) -> Outcome
    requires { FitsSymbol symbol.now }
    ensures { EndsAs (answered (D.answer demangler.now kind symbol.now) kind.skip buffer.old) buffer.old (ending_of result buffer.new) }
{
    let mut lists = match demangler.lists(alloc) {
        Ok(lists) => lists,
        Err(_) => return no_memory(),
    };
    let mut text = Vec::new(alloc);
    match demangler.demangle(&mut lists, kind, symbol, &mut text) {
        Demangled::Text(_) => write(&text, buffer),
        Demangled::TooLong(_) => of_refusal(Refusal::TooLong, kind.skip, buffer),
        Demangled::Refused(refusal) => of_refusal(refusal, kind.skip, buffer),
    }
}

/// Writes the text of a name's symbol to the front of the buffer, with only the lists that this needs.
fn name_once<C: Cpp>(
    alloc: Global,
    languages: &Languages<C>,
    asked: Asked,
    name: &[u8],
    buffer: &mut [u8],
) -> Outcome
    ensures { EndsAs (name_told (λ kind symbol. language_answer_by C.mangled languages.now.limit languages.now.detail kind.lang symbol) asked name.now buffer.old) buffer.old (ending_of result buffer.new) }
{
    let kind = match asked.named(name) {
        Ok(kind) => kind,
        Err(status) => return alone(status),
    };
    let symbol = &name[kind.skip as usize..];
    match short_once(alloc, languages, kind, symbol, buffer) {
        Some(outcome) => outcome,
        None => symbol_by_rows(alloc, languages, kind, symbol, buffer),
    }
}

/// Writes the text of a name's symbol as `name_once` does, with legacy Rust names as paths. A symbol that can't be such a name takes no
/// more lists than without that option.
fn legacy_once<C: Cpp>(
    alloc: Global,
    legacy: &Legacy<C>,
    asked: Asked,
    name: &[u8],
    buffer: &mut [u8],
) -> Outcome
    ensures { EndsAs (name_told (answers_by C.mangled true legacy.now.languages.limit legacy.now.languages.detail) asked name.now buffer.old) buffer.old (ending_of result buffer.new) }
{
    let kind = match asked.named(name) {
        Ok(kind) => kind,
        Err(status) => return alone(status),
    };
    let symbol = &name[kind.skip as usize..];
    if may_be_legacy(symbol) {
        return name_by(alloc, legacy, asked, name, buffer);
    }
    match short_once(alloc, &legacy.languages, kind, symbol, buffer) {
        Some(outcome) => outcome,
        None => symbol_by_rows(alloc, legacy, kind, symbol, buffer),
    }
}

/// Writes the text of a type to the front of the buffer.
fn type_by<D: Demangler>(alloc: Global, demangler: &D, name: &[u8], buffer: &mut [u8]) -> Outcome
    requires { length name.now ≤ LONGEST_WORD }
    ensures { EndsAs (answered (type_answer (D.answer demangler.now) name.now) 0 buffer.old) buffer.old (ending_of result buffer.new) }
{
    let mut lists = match demangler.lists(alloc) {
        Ok(lists) => lists,
        Err(_) => return no_memory(),
    };
    let mut text = Vec::new(alloc);
    match append_type(alloc, demangler, &mut lists, name, &mut text) {
        Ok(()) => write(&text, buffer),
        Err(refusal) => of_refusal(refusal, 0, buffer),
    }
}

/// The outcome of a name whose symbol has this outcome. It is the type's outcome if there is no symbol, types are requested and the name
/// can be a type; otherwise it is the symbol's.
pub(crate) fn or_type<D: Demangler>(
    alloc: Global,
    demangler: &D,
    asked: Asked,
    name: &[u8],
    buffer: &mut [u8],
    outcome: Outcome,
) -> Outcome
    ensures { (before : List ℕ) → EndsAs (name_told (D.answer demangler.now) asked name.now before) before (ending_of outcome buffer.old)
        → EndsAs (name_or_type_told (D.answer demangler.now) asked name.now before) before (ending_of result buffer.new) }
{
    if asked.reads_type(outcome.status, name) {
        return type_by(alloc, demangler, name, buffer);
    }
    outcome
}

/// Writes the text of a name's symbol, or of the type that the name is, with any demangler, to the front of the buffer.
fn text_by<D: Demangler>(
    alloc: Global,
    demangler: &D,
    asked: Asked,
    name: &[u8],
    buffer: &mut [u8],
) -> Outcome
    ensures { EndsAs (name_or_type_told (D.answer demangler.now) asked name.now buffer.old) buffer.old (ending_of result buffer.new) }
{
    let outcome = name_by(alloc, demangler, asked, name, buffer);
    or_type(alloc, demangler, asked, name, buffer, outcome)
}

/// Writes the short text of a name's symbol, or of the type that the name is, with a grammar of C++, to the front of the buffer.
fn short_in<C: Cpp>(
    alloc: Global,
    cpp: C,
    asked: Asked,
    keeps_inline: bool,
    limit: u32,
    name: &[u8],
    buffer: &mut [u8],
) -> Outcome
    ensures { EndsAs (name_or_type_told (short_answers keeps_inline asked.legacy (answers_by C.mangled asked.legacy limit asked.detail)) asked name.now buffer.old) buffer.old (ending_of result buffer.new) }
{
    if asked.legacy {
        let short = Rewriting {
            demangler: asked.with_legacy(limit, cpp),
            rewrite: Shortening {
                keeps_inline,
                reads_paths: asked.legacy,
            },
        };
        return text_by(alloc, &short, asked, name, buffer);
    }
    let short = Rewriting {
        demangler: asked.languages(limit, cpp),
        rewrite: Shortening {
            keeps_inline,
            reads_paths: asked.legacy,
        },
    };
    text_by(alloc, &short, asked, name, buffer)
}

/// Writes the whole text of a name's symbol, or of the type that the name is, with a grammar of C++, to the front of the buffer.
fn whole_in<C: Cpp>(
    alloc: Global,
    cpp: C,
    asked: Asked,
    limit: u32,
    name: &[u8],
    buffer: &mut [u8],
) -> Outcome
    ensures { EndsAs (name_or_type_told (answers_by C.mangled asked.legacy limit asked.detail) asked name.now buffer.old) buffer.old (ending_of result buffer.new) }
{
    if asked.legacy {
        let legacy = asked.with_legacy(limit, cpp);
        let outcome = legacy_once(alloc, &legacy, asked, name, buffer);
        return or_type(alloc, &legacy, asked, name, buffer, outcome);
    }
    let languages = asked.languages(limit, cpp);
    let outcome = name_once(alloc, &languages, asked, name, buffer);
    or_type(alloc, &languages, asked, name, buffer, outcome)
}

/// Writes the text of a name's symbol, or of the type that the name is, as requested, with a grammar of C++, to the front of the buffer.
fn text_in<C: Cpp>(
    alloc: Global,
    cpp: C,
    asked: Asked,
    limit: u32,
    name: &[u8],
    buffer: &mut [u8],
) -> Outcome
    ensures { EndsAs (name_or_type_told (answers_as asked.texts asked.legacy (answers_by C.mangled asked.legacy limit asked.detail)) asked name.now buffer.old) buffer.old (ending_of result buffer.new) }
{
    match asked.texts {
        Texts::Whole => whole_in(alloc, cpp, asked, limit, name, buffer),
        Texts::Short { keeps_inline } => {
            short_in(alloc, cpp, asked, keeps_inline, limit, name, buffer)
        }
    }
}

/// Writes the text of a name's symbol to the front of the buffer, or, if types are requested, of the type that the name is. The text costs
/// at most the limit. If nothing is written, the outcome says why, and the buffer stays as it is.
#[tactic(auto, unfolding(crate::specs::Calls::text_told))]
pub fn text_of(alloc: Global, name: &[u8], limit: u32, flags: u32, buffer: &mut [u8]) -> Outcome
    ensures { EndsAs (text_told (asked_of flags) limit name.now buffer.old) buffer.old (ending_of result buffer.new) }
{
    let Some(asked) = asked_of(flags) else {
        return alone(FLAGS);
    };
    if asked.wide {
        return text_in(alloc, Wide, asked, limit, name, buffer);
    }
    text_in(alloc, Abi, asked, limit, name, buffer)
}

/// Writes the pressed spelling of a name's symbol, where each repeated part is a reference, to the front of the buffer. If nothing is
/// written, the outcome says why, and the buffer stays as it is.
#[tactic(auto, unfolding(crate::specs::Calls::press_told))]
pub fn press_of(alloc: Global, name: &[u8], flags: u32, buffer: &mut [u8]) -> Outcome
    ensures { PressEndsAs (press_told (asked_of flags) name.now buffer.old) buffer.old (ending_of result buffer.new) }
{
    let Some(asked) = asked_of(flags) else {
        return alone(FLAGS);
    };
    if asked.wide {
        let outcome = name_by(alloc, &WidePressing, asked, name, buffer);
        return unspelled(outcome, buffer);
    }
    name_by(alloc, &Pressing, asked, name, buffer)
}
