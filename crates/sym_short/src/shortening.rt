// What makes texts short.
ghost use Rattle.short_names.specs.Short.{shortened};
ghost use Rattle.sym_short.specs.Rewriting.{cpp_rewritten};

use crate::cpp::rewrites;
use crate::rewriting::Rewrites;
use short_names::{Short, has_std};
use std::alloc::{AllocError, Global};
use sym_filter::Kind;

/// Makes texts of C++ symbols short.
#[derive(Clone, Copy, Drop)]
pub struct Shortening {
    /// Whether the inline namespaces of `std` stay.
    pub keeps_inline: bool,
    /// Whether legacy Rust names are read as paths, whose texts stay as they are.
    pub reads_paths: bool,
}

impl Rewrites for Shortening {
    type Lists = Short;

    ghost rewritten = { λ shortening. cpp_rewritten (shortened shortening.keeps_inline) shortening.reads_paths };

    fn lists(alloc: Global) -> Short {
        Short::new(alloc)
    }

    fn rewrite(
        &self,
        lists: &mut Short,
        kind: Kind,
        symbol: &[u8],
        from: usize,
        out: &mut Vec<u8>,
    ) -> Result<(), AllocError> {
        // most texts have nothing that becomes short, and whether a symbol is a legacy name takes longer to see
        if !has_std(&out[from..]) {
            return Ok(());
        }
        if !rewrites(self.reads_paths, kind.lang, symbol) {
            return Ok(());
        }
        lists.shorten(self.keeps_inline, from, out)
    }

    fn is_alike(&self, other: &Shortening) -> bool {
        self.keeps_inline == other.keeps_inline && self.reads_paths == other.reads_paths
    }
}
