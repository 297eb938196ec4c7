// The demangler that shows legacy Rust names as the paths that they denote, before it tries both manglings.
ghost use Rattle.std.specs.Prelude.{◌≡◌, ℕ, List, Result, IfSome, false};
ghost use Rattle.sym_core.specs.Number.{FitsSymbol};
ghost use Rattle.sym_core.specs.declared.refusal.Refusal.{Refusal as Refusal-type};
ghost use Rattle.rust_legacy.specs.Path.{AreRead};
ghost use Rattle.rust_legacy.specs.Text.{legacy_answer};
ghost use Rattle.sym_filter.specs.Demangled.{IsAppended, IsDemangled};
ghost use Rattle.sym_languages.specs.Languages.{AreCountsBy, language_answer_by};

use crate::languages::{Cpp, Languages, Lists};
use rust_legacy::{PathPlace, is_path, names_of, path_of, push_text};
use std::alloc::{AllocError, Global};
use sym_core::{Counts, Refusal};
use sym_filter::{Demangled, Demangler, Kind, Lang};

/// Both manglings, with legacy Rust names as paths: such a name is a C++ symbol, too, but its text is that of its path, at the same limit.
/// The detail doesn't change that text. The counts of such a name are those of the C++ symbol.
#[derive(Clone, Copy, Drop)]
pub struct Legacy<C: Cpp> {
    pub languages: Languages<C>,
}

impl<C: Cpp> Demangler for Legacy<C> {
    type Lists = Lists<C>;

    ghost answer = { λ legacy kind symbol. legacy_answer legacy.languages.limit symbol (language_answer_by C.mangled legacy.languages.limit legacy.languages.detail kind.lang symbol) };

    ghost are_counts = { λ legacy lang symbol counts. AreCountsBy (record { mangled = C.mangled; IsRead = C.is_read; bytes_of = C.bytes_of; whole_of = C.whole_of; are_nodes = C.are_nodes; nodes_a_byte = C.nodes_a_byte }) lang symbol counts };

    fn lists(&self, alloc: Global) -> Result<Lists<C>, AllocError> {
        self.languages.lists(alloc)
    }

    fn read_ahead(&self, lists: &mut Lists<C>, lang: Lang, front: &[u8]) {
        self.languages.read_ahead(lists, lang, front);
    }

    fn demangle(
        &self,
        lists: &mut Lists<C>,
        kind: Kind,
        symbol: &[u8],
        out: &mut Vec<u8>,
    ) -> Demangled {
        let Some(place) = path_of(symbol) else {
            return self.languages.demangle(lists, kind, symbol, out);
        };
        // each legacy name is read as C++, so memory ran out here
        let Some(counts) = counts_of(&self.languages, lists, kind, symbol, out) else {
            return Demangled::Refused(Refusal::Memory);
        };
        match push_text(symbol, place, self.languages.limit, out) {
            Ok(()) => Demangled::Text(counts),
            Err(refusal) => match refusal {
                Refusal::TooLong => Demangled::TooLong(counts),
                // each other refusal of a path is a lack of memory
                _ => Demangled::Refused(Refusal::Memory),
            },
        }
    }

    #[inline(always)]
    fn append(
        &self,
        lists: &mut Lists<C>,
        kind: Kind,
        symbol: &[u8],
        out: &mut Vec<u8>,
    ) -> Result<(), Refusal> {
        let Some(place) = names_of(symbol).0 else {
            return self.languages.append(lists, kind, symbol, out);
        };
        append_named(self, lists, kind, symbol, place, out)
    }
}

/// Whether a symbol may be a legacy name. For any other symbol `Legacy` answers what its languages answer.
pub fn may_be_legacy(symbol: &[u8]) -> bool
    ensures { result ≡ false → (limit : ℕ) (other : Result (List ℕ) Refusal-type) → legacy_answer limit symbol.now other ≡ other }
{
    match names_of(symbol).0 {
        Some(_) => true,
        None => false,
    }
}

/// Appends the text of a symbol that may be a legacy name.
// This is out of line, so that all other symbols pay nothing for it.
#[inline(never)]
fn append_named<C: Cpp>(
    legacy: &Legacy<C>,
    lists: &mut Lists<C>,
    kind: Kind,
    symbol: &[u8],
    place: PathPlace,
    out: &mut Vec<u8>,
) -> Result<(), Refusal>
    requires fits { FitsSymbol symbol.now }
    requires read { AreRead symbol.now place }
    ensures { IsAppended (legacy_answer legacy.now.languages.limit symbol.now (language_answer_by C.mangled legacy.now.languages.limit legacy.now.languages.detail kind.lang symbol.now)) out.old.items out.new.items result }
{
    if !is_path(symbol, place).0 {
        return legacy.languages.append(lists, kind, symbol, out);
    }
    push_text(symbol, place, legacy.languages.limit, out)
}

/// The counts of a symbol that is read.
fn counts_of<C: Cpp>(
    languages: &Languages<C>,
    lists: &mut Lists<C>,
    kind: Kind,
    symbol: &[u8],
    out: &mut Vec<u8>,
) -> Option<Counts>
    requires { FitsSymbol symbol.now }
    ensures counts { IfSome result (λ counts. AreCountsBy (record { mangled = C.mangled; IsRead = C.is_read; bytes_of = C.bytes_of; whole_of = C.whole_of; are_nodes = C.are_nodes; nodes_a_byte = C.nodes_a_byte }) kind.lang symbol.now counts) }
    ensures same { out.new.items ≡ out.old.items }
{
    let len = out.len();
    match languages.demangle(lists, kind, symbol, out) {
        Demangled::Text(counts) => {
            out.truncate(len);
            Some(counts)
        }
        Demangled::TooLong(counts) => Some(counts),
        Demangled::Refused(_) => None,
    }
}
