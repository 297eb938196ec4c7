// What a caller's flags request.
ghost use Rattle.std.specs.Prelude.{◌≡◌, ◌≤◌, ◌==◌, ◌&&◌, IfOk, length};
ghost use Rattle.sym_core.specs.Number.{FitsSymbol};
ghost use Rattle.sym_filter.specs.Kinds.{kind_by_beginning, symbol_of};
ghost use Rattle.type_names.specs.Types.{is_type_word};
ghost use Rattle.sym_calls.specs.Calls.{asked_of, detail_of, has, letters_of, named};

use crate::outcome::{NO_SYMBOL, SIZE};
use sym_core::fits;
use sym_filter::{Kind, Letters, kind_of};
use sym_languages::languages::Cpp;
use sym_languages::{Languages, Legacy};
use sym_print::Detail;
use sym_short::{Texts, texts_of};
use type_names::is_type_word;

/// Template and generic arguments are left out.
pub const BRIEF: u32 = 1;
/// Each C++ function is shown only by its name, without its return type and parameters.
pub const NO_PARAMETERS: u32 = 2;
/// C++ is read by the wide grammar.
pub const WIDE: u32 = 4;
/// Rust's legacy names are shown as the paths that they denote.
pub const LEGACY: u32 = 8;
/// A name may begin with an underscore before its symbol.
pub const UNDERSCORE: u32 = 16;
/// Words of a text have only ASCII letters.
pub const ASCII_WORDS: u32 = 32;
/// Words of a text begin within its runs, too, as the program `demangle` finds them. Then `ASCII_WORDS` has no effect.
pub const WITHIN: u32 = 64;
/// A name that doesn't begin like a symbol is read as a C++ type.
pub const TYPES: u32 = 128;
/// Texts of C++ symbols are short.
pub const SHORT: u32 = 256;
/// Short texts have the inline namespaces of `std`. Without `SHORT` this has no effect.
pub const KEEP_INLINE: u32 = 512;

/// What flags request.
#[derive(Clone, Copy)]
pub struct Asked {
    pub detail: Detail,
    pub texts: Texts,
    pub wide: bool,
    pub legacy: bool,
    pub underscore: bool,
    pub letters: Letters,
    pub types: bool,
}

impl Asked {
    /// Both manglings for the request, at a limit and with a grammar of C++.
    pub(crate) fn languages<C: Cpp>(self, limit: u32, cpp: C) -> Languages<C>
        ensures limit { result.limit ≡ limit }
        ensures detail { result.detail ≡ self.detail }
    {
        Languages {
            limit,
            detail: self.detail,
            cpp,
        }
    }

    /// Both manglings for the request, with Rust's legacy names as paths.
    pub(crate) fn with_legacy<C: Cpp>(self, limit: u32, cpp: C) -> Legacy<C>
        ensures limit { result.languages.limit ≡ limit }
        ensures detail { result.languages.detail ≡ self.detail }
    {
        Legacy {
            languages: self.languages(limit, cpp),
        }
    }

    /// The kind of a name whose symbol is read.
    ///
    /// # Errors
    ///
    /// `NO_SYMBOL` for a name that doesn't begin like a symbol, `SIZE` for a symbol of too many bytes.
    #[tactic(auto, unfolding(crate::specs::Calls::named))]
    pub(crate) fn named(self, name: &[u8]) -> Result<Kind, u32>
        ensures is { result ≡ named self.underscore name.now }
        ensures within { IfOk result (λ kind. kind.skip ≤ length name.now) }
        ensures fits { IfOk result (λ kind. FitsSymbol (symbol_of kind name.now)) }
    {
        let Some(kind) = kind_by_beginning(name) else {
            return Err(NO_SYMBOL);
        };
        if kind.skip > 0 && !self.underscore {
            return Err(NO_SYMBOL);
        }
        if fits(&name[kind.skip as usize..]) {
            Ok(kind)
        } else {
            Err(SIZE)
        }
    }

    /// Whether a name is read as a type, once its symbol has this status.
    pub(crate) fn reads_type(self, status: u32, name: &[u8]) -> bool
        ensures { result ≡ (self.types && (status == 11 && is_type_word name.now)) }
    {
        self.types && (status == NO_SYMBOL && is_type_word(name))
    }
}

/// The kind of a name of any length by its first bytes, if the name begins like a symbol.
fn kind_by_beginning(name: &[u8]) -> Option<Kind>
    ensures { result ≡ kind_by_beginning name.now }
{
    // the first bytes of each kind are at most three
    kind_of(&name[..name.len().min(3)])
}

/// Whether a flag is among flags.
#[tactic(auto, unfolding(crate::specs::Calls::has))]
fn has(flags: u32, flag: u32) -> bool
    ensures { result ≡ has flags flag }
{
    flags & flag != 0
}

/// How much of a symbol flags request.
#[tactic(auto, unfolding(crate::specs::Calls::detail_of))]
fn detail_of(flags: u32) -> Detail
    ensures { result ≡ detail_of flags }
{
    match (has(flags, BRIEF), has(flags, NO_PARAMETERS)) {
        (false, false) => Detail::Full,
        (true, false) => Detail::Brief,
        (false, true) => Detail::NoParameters,
        (true, true) => Detail::BriefNoParameters,
    }
}

/// Which letters words of a text have.
#[tactic(auto, unfolding(crate::specs::Calls::letters_of))]
fn letters_of(flags: u32) -> Letters
    ensures { result ≡ letters_of flags }
{
    match (has(flags, WITHIN), has(flags, ASCII_WORDS)) {
        (true, _) => Letters::Within,
        (false, true) => Letters::Ascii,
        (false, false) => Letters::Any,
    }
}

/// What flags request, if each of them exists.
#[tactic(auto, unfolding(crate::specs::Calls::asked_of))]
pub(crate) fn asked_of(flags: u32) -> Option<Asked>
    ensures { result ≡ asked_of flags }
{
    if flags >= 2 * KEEP_INLINE {
        return None;
    }
    Some(Asked {
        detail: detail_of(flags),
        texts: texts_of(has(flags, SHORT), has(flags, KEEP_INLINE)),
        wide: has(flags, WIDE),
        legacy: has(flags, LEGACY),
        underscore: has(flags, UNDERSCORE),
        letters: letters_of(flags),
        types: has(flags, TYPES),
    })
}
