// What is known of a text: what its symbol is, and its parts.
ghost use Rattle.std.specs.Prelude.{◌≡◌, IfOk, List, Option, ℕ};
ghost use Rattle.sym_core.specs.Number.{FitsSymbol};
ghost use Rattle.sym_filter.specs.declared.kinds.Kind.{Kind as Kind-type};
ghost use Rattle.text_details.specs.Details.{Details as Details-type, details_in};

use std::alloc::{AllocError, Global};
use sym_filter::{Demangler, Kind};
use sym_parts::{NameKind, Part};
use sym_short::{Rewrites, Rewriting};

/// What a symbol is, and the parts of its text.
#[derive(Drop)]
pub struct Details {
    pub kind: NameKind,
    pub parts: Vec<Part>,
}

/// A demangler that may know the details of its texts.
pub trait Detailed: Demangler {
    // the details of the text of a word's symbol, if they are known
    ghost details: { Self → Kind-type → List ℕ → Option Details-type };

    /// The details of the text of a word's symbol, if they are known.
    ///
    /// # Errors
    ///
    /// `AllocError` where memory runs out.
    fn find_details(
        &self,
        alloc: Global,
        kind: Kind,
        symbol: &[u8],
    ) -> Result<Option<Details>, AllocError>
        requires { FitsSymbol symbol.now }
        ensures { IfOk result (λ found. details_in found ≡ details self.now kind symbol.now) };
}

/// No details are known of a rewritten text: the details of the original text don't fit it.
impl<D: Demangler, R: Rewrites> Detailed for Rewriting<D, R> {
    ghost use Rattle.text_details.specs.Details.{no_details};

    ghost details = { λ rewriting. no_details };

    fn find_details(
        &self,
        _alloc: Global,
        _kind: Kind,
        _symbol: &[u8],
    ) -> Result<Option<Details>, AllocError> {
        Ok(None)
    }
}
