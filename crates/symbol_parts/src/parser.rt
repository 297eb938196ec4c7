// Demanglers that answer with parts.
ghost use Rattle.std.specs.Prelude.{◌≡◌, ◌⊎◌, Err, IfErr, IfOk, List, Ok, Result, ℕ};
ghost use Rattle.sym_core.specs.Number.{FitsSymbol};
ghost use Rattle.sym_core.specs.declared.refusal.Refusal.{Refusal as Refusal-type};
ghost use Rattle.sym_core.specs.declared.refusal.Refusal.TheVariants.{Memory};
ghost use Rattle.sym_filter.specs.declared.kinds.Kind.{Kind as Kind-type};
ghost use Rattle.sym_shape.specs.Decided.{AreBytes};
ghost use Rattle.symbol_parts.specs.Parsed.{Parsed as Parsed-type, found, without_parts};

use crate::parsed::Parsed;
use std::alloc::Global;
use sym_core::Refusal;
use sym_filter::{Demangler, Kind};

/// A demangler that answers with the parts of its texts, too.
pub trait Parser: Demangler {
    // what a parser answers for the symbol of a word of a kind: the text with its parts, or the reason why there is none
    ghost parsed: { Self → Kind-type → List ℕ → Result Parsed-type Refusal-type };

    /// The text of a word's symbol, with what the symbol is and the parts of the text.
    ///
    /// # Errors
    ///
    /// The reason why the symbol has no text. Lack of memory may refuse any symbol.
    fn parse(&self, alloc: Global, kind: Kind, symbol: &[u8]) -> Result<Parsed, Refusal>
        requires { FitsSymbol symbol.now }
        ensures ok { IfOk result (λ p. parsed self.now kind symbol.now ≡ Ok (found p)) }
        ensures err { IfErr result (λ e. (e ≡ Memory) ⊎ (parsed self.now kind symbol.now ≡ Err e)) };

    // the texts and refusals of a parser are those of the demangler
    ghost same: { (parser : Self) (kind : Kind-type) (symbol : List ℕ) → AreBytes symbol → without_parts (parsed parser kind symbol) ≡ Self.answer parser kind symbol };
}
