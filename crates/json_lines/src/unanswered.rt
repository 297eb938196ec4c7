// A demangler that gives no symbol a text, and a sink that keeps nothing, for a filter that only finds the words of its text.
ghost use Rattle.std.specs.Prelude.{Err, None};
ghost use Rattle.sym_core.specs.declared.refusal.Refusal.TheVariants.{Malformed};

use std::alloc::{AllocError, Global};
use sym_core::Refusal;
use sym_filter::{Demangled, Demangler, Kind, Lang, Sink};

/// The answer to each symbol.
const NO_TEXT: Refusal = Refusal::Malformed { at: 0 };

/// A demangler that refuses each symbol, so that a filter leaves each word that names a symbol as it is.
#[derive(Clone, Copy, Debug, PartialEq, Eq)]
pub(crate) struct Unanswered;

impl Demangler for Unanswered {
    type Lists = ();

    ghost answer = { λ _ _ _. Err (Malformed 0) };

    ghost are_counts = { λ _ _ _ _. Unit {0} };

    fn lists(&self, _alloc: Global) -> Result<(), AllocError> {
        Ok(())
    }

    fn read_ahead(&self, _lists: &mut (), _lang: Lang, _front: &[u8]) {}

    fn demangle(
        &self,
        _lists: &mut (),
        _kind: Kind,
        _symbol: &[u8],
        _out: &mut Vec<u8>,
    ) -> Demangled {
        Demangled::Refused(NO_TEXT)
    }

    fn append(
        &self,
        _lists: &mut (),
        _kind: Kind,
        _symbol: &[u8],
        _out: &mut Vec<u8>,
    ) -> Result<(), Refusal> {
        Err(NO_TEXT)
    }
}

/// A sink that takes all bytes and keeps none.
#[derive(Clone, Copy, Debug, PartialEq, Eq)]
pub(crate) struct Nowhere;

impl Sink for Nowhere {
    ghost taken = { λ _. None };

    ghost failure_count = { λ _. 0 };

    fn write(&mut self, bytes: &[u8]) -> Option<usize> {
        Some(bytes.len())
    }

    fn failures(&self) -> u64 {
        0
    }
}
