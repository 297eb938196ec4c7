// What spells texts as GNU's demangler does.
ghost use Rattle.gnu_texts.specs.Spelling.{gnu_text};
ghost use Rattle.sym_short.specs.Rewriting.{cpp_rewritten};

use crate::cpp::rewrites;
use crate::rewriting::Rewrites;
use gnu_texts::append_spelled;
use std::alloc::{AllocError, Global};
use sym_filter::Kind;

/// Spells texts of C++ symbols as GNU's demangler does.
#[derive(Clone, Copy, Drop)]
pub struct Gnu {
    /// Whether legacy Rust names are read as paths, whose texts stay as they are.
    pub reads_paths: bool,
}

impl Rewrites for Gnu {
    type Lists = Vec<u8>;

    ghost rewritten = { λ gnu. cpp_rewritten gnu_text gnu.reads_paths };

    fn lists(alloc: Global) -> Vec<u8> {
        Vec::new(alloc)
    }

    fn rewrite(
        &self,
        text: &mut Vec<u8>,
        kind: Kind,
        symbol: &[u8],
        from: usize,
        out: &mut Vec<u8>,
    ) -> Result<(), AllocError> {
        if !rewrites(self.reads_paths, kind.lang, symbol) {
            return Ok(());
        }
        text.clear();
        append_spelled(&out[from..], text)?;
        out.truncate(from);
        out.extend_from_slice(text)
    }

    fn is_alike(&self, other: &Gnu) -> bool {
        self.reads_paths == other.reads_paths
    }
}
