//! Names that are C++ types, as `typeid(x).name()` gives them. The text of a type is that of its typeinfo symbol (`_ZTI` and the
//! name) without the words `typeinfo for`.
#![tactic(auto)]

ghost use Rattle.std.specs.Prelude.{◌≡◌, ◌≤◌, ◌&&◌, length, option_map, IfOk};
ghost use Rattle.std.specs.List.{list_all};
ghost use Rattle.sym_filter.specs.Demangled.{IsAppended};
ghost use Rattle.sym_filter.specs.declared.kinds.TheConstants.{LONGEST_WORD};
ghost use Rattle.type_names.specs.Types.{after_words, before_front, is_type_byte, is_type_word, type_answer, type_for, type_text};

use std::alloc::{AllocError, Global};
use sym_core::Refusal;
use sym_filter::kinds::LONGEST_WORD;
use sym_filter::words::is_byte_of;
use sym_filter::{Demangler, Kind, Lang, Letters};

/// The beginning of each typeinfo symbol.
const INFORMATION: &[u8] = b"_ZTI";

/// The beginning of the text of each typeinfo symbol.
const INFORMATION_WORDS: &[u8] = b"typeinfo for ";

/// The text of a name as a type, if types are read and the name is one.
///
/// # Errors
///
/// An error where memory runs out.
pub fn type_for<D: Demangler>(
    alloc: Global,
    demangler: &D,
    types: bool,
    name: &[u8],
) -> Result<Option<Vec<u8>>, AllocError>
    ensures { IfOk result (λ text. option_map (λ bytes. bytes.items) text ≡ type_for types (D.answer demangler.now) name.now) }
{
    if may_be_type(types, name) {
        return type_text(alloc, demangler, name);
    }
    Ok(None)
}

/// Whether types are read and a name can be one.
fn may_be_type(types: bool, name: &[u8]) -> bool
    ensures { result ≡ (types && is_type_word name.now) }
{
    types && is_type_word(name)
}

/// The text of a type, if it has one.
fn type_text<D: Demangler>(
    alloc: Global,
    demangler: &D,
    name: &[u8],
) -> Result<Option<Vec<u8>>, AllocError>
    requires { length name.now ≤ LONGEST_WORD }
    ensures { IfOk result (λ text. option_map (λ bytes. bytes.items) text ≡ type_text (D.answer demangler.now) name.now) }
{
    let mut lists = demangler.lists(alloc)?;
    let mut text = Vec::new(alloc);
    match append_type(alloc, demangler, &mut lists, name, &mut text) {
        Ok(()) => Ok(Some(text)),
        Err(refusal) => match refusal {
            Refusal::Memory => Err(AllocError),
            _ => Ok(None),
        },
    }
}

/// Appends the text of a type, if its typeinfo symbol has a text; otherwise appends nothing.
///
/// # Errors
///
/// The reason why the type has no text, with a place in the name. Lack of memory may refuse any type.
pub fn append_type<D: Demangler>(
    alloc: Global,
    demangler: &D,
    lists: &mut D::Lists,
    name: &[u8],
    out: &mut Vec<u8>,
) -> Result<(), Refusal>
    requires { length name.now ≤ LONGEST_WORD }
    ensures { IsAppended (type_answer (D.answer demangler.now) name.now) out.old.items out.new.items result }
{
    let mut symbol = Vec::from_slice(alloc, INFORMATION)?;
    symbol.extend_from_slice(name)?;
    let kind = Kind {
        lang: Lang::Cpp,
        skip: 0,
    };
    let mut text = Vec::new(alloc);
    match demangler.append(lists, kind, &symbol, &mut text) {
        Ok(()) => append_after_words(&text, out),
        Err(refusal) => Err(before_front(refusal)),
    }
}

/// The refusal of a type, by that of its typeinfo symbol: the place is counted from the type, which begins after
/// `_ZTI`.
fn before_front(refusal: Refusal) -> Refusal
    ensures { result ≡ before_front refusal }
{
    match refusal {
        Refusal::Malformed { at } => Refusal::Malformed {
            at: at.saturating_sub(4),
        },
        Refusal::BadReference { at } => Refusal::BadReference {
            at: at.saturating_sub(4),
        },
        Refusal::BadValue { at } => Refusal::BadValue {
            at: at.saturating_sub(4),
        },
        Refusal::TooLong => Refusal::TooLong,
        Refusal::Memory => Refusal::Memory,
    }
}

/// Whether a name can be a type: it is no longer than a word may be, and each of its bytes may be in a word and is no dot.
pub fn is_type_word(name: &[u8]) -> bool
    ensures { result ≡ is_type_word name.now }
{
    name.len() <= LONGEST_WORD && are_type_bytes(name)
}

/// Whether each byte may occur in a type.
fn are_type_bytes(bytes: &[u8]) -> bool
    ensures { result ≡ list_all is_type_byte bytes.now }
{
    bytes.iter().all(|byte| is_type_byte(*byte))
}

/// Whether a byte may occur in a type.
fn is_type_byte(byte: u8) -> bool
    ensures { result ≡ is_type_byte byte }
{
    is_byte_of(Letters::Any, byte) && byte != b'.'
}

/// Appends the text of a type, taken from that of its typeinfo symbol.
fn append_after_words(text: &[u8], out: &mut Vec<u8>) -> Result<(), Refusal>
    ensures { IsAppended (after_words text.now) out.old.items out.new.items result }
{
    match text.strip_prefix(INFORMATION_WORDS) {
        Some(rest) => {
            out.extend_from_slice(rest)?;
            Ok(())
        }
        None => Err(Refusal::Malformed { at: 0 }),
    }
}
