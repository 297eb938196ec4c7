// What the filter and the command require of the languages below them.
ghost use Rattle.std.specs.Prelude.{List, ℕ, Result};
ghost use Rattle.sym_core.specs.Number.{FitsSymbol};
ghost use Rattle.sym_core.specs.declared.counts.Counts.{Counts as Counts-type};
ghost use Rattle.sym_core.specs.declared.refusal.Refusal.{Refusal as Refusal-type};
ghost use Rattle.sym_filter.specs.Demangled.{IsAppended, IsDemangled};
ghost use Rattle.sym_filter.specs.declared.kinds.Kind.{Kind as Kind-type};
ghost use Rattle.sym_filter.specs.declared.kinds.Lang.{Lang as Lang-type};

use crate::kinds::{Kind, Lang};
use std::alloc::{AllocError, Global};
use sym_core::{Counts, Refusal};

/// The outcome for a symbol. A symbol that is read has counts, even if its text is over the limit.
#[derive(Clone, Copy, Debug, PartialEq, Eq)]
pub enum Demangled {
    /// The symbol's text was appended.
    Text(Counts),
    /// The symbol is read, and its text costs more than the limit.
    TooLong(Counts),
    /// The symbol isn't read, or memory ran out.
    Refused(Refusal),
}

/// Gives the text of a symbol at the demangler's own limit and detail, or refuses the symbol.
pub trait Demangler {
    /// The lists that the demangler works on, kept from one symbol to the next.
    type Lists: Drop;

    // the answer for the symbol of a word of this kind: its text, or why it has none
    ghost answer: { Self → Kind-type → List ℕ → Result (List ℕ) Refusal-type };
    // whether counts are those of a symbol that is read, given its language and its bytes
    ghost are_counts: { Self → Lang-type → List ℕ → Counts-type → Type 0 };

    /// Lists to work on.
    fn lists(&self, alloc: Global) -> Result<Self::Lists, AllocError>;

    /// Reads the bytes that have arrived of a symbol that may continue. The symbol's answer is the same without this
    /// call.
    fn read_ahead(&self, lists: &mut Self::Lists, lang: Lang, front: &[u8])
        requires { FitsSymbol front.now };

    /// Appends the text of a word's symbol, or nothing. Any symbol may be refused for want of
    /// memory.
    fn demangle(
        &self,
        lists: &mut Self::Lists,
        kind: Kind,
        symbol: &[u8],
        out: &mut Vec<u8>,
    ) -> Demangled
        requires { FitsSymbol symbol.now }
        ensures { IsDemangled (answer self.now kind symbol.now) (are_counts self.now kind.lang symbol.now) out.old.items out.new.items result };

    /// Appends the text that `demangle` appends, or nothing, and counts nothing.
    ///
    /// # Errors
    ///
    /// Why the symbol has no text; for a symbol that is read this is `TooLong`. Any symbol may be
    /// refused for want of memory.
    fn append(
        &self,
        lists: &mut Self::Lists,
        kind: Kind,
        symbol: &[u8],
        out: &mut Vec<u8>,
    ) -> Result<(), Refusal>
        requires { FitsSymbol symbol.now }
        ensures { IsAppended (answer self.now kind symbol.now) out.old.items out.new.items result };
}
