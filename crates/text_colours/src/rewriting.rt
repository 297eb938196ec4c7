// What shows the parts of texts in colours.
ghost use Rattle.text_colours.specs.Answers.{colored_text};

use crate::coloring::colored;
use std::alloc::{AllocError, Global};
use sym_filter::Kind;
use sym_short::Rewrites;
use text_details::Detailed;

/// Shows the parts of texts in colours, where a demangler knows the parts.
#[derive(Clone, Copy, Drop)]
pub struct Coloring<D> {
    /// The demangler that knows parts of texts.
    pub known: D,
}

impl<D: Detailed> Rewrites for Coloring<D> {
    type Lists = ();

    ghost rewritten = { λ coloring kind symbol. colored_text (D.details coloring.known kind symbol) };

    fn lists(_alloc: Global) {}

    fn rewrite(
        &self,
        _lists: &mut (),
        kind: Kind,
        symbol: &[u8],
        from: usize,
        out: &mut Vec<u8>,
    ) -> Result<(), AllocError> {
        let alloc = *out.allocator();
        let Some(details) = self.known.find_details(alloc, kind, symbol)? else {
            return Ok(());
        };
        let shown = colored(alloc, &out[from..], &details.parts)?;
        out.truncate(from);
        out.extend_from_slice(&shown)
    }

    /// Settings don't decide details, so no two values are known to be alike.
    fn is_alike(&self, _other: &Coloring<D>) -> bool {
        false
    }
}
