// What writes texts as strings of JSON have them.
ghost use Rattle.demangle_command.specs.Escaping.{escaped_if};

use demangle_names::push_escaped;
use std::alloc::{AllocError, Global};
use sym_filter::Kind;
use sym_short::Rewrites;

/// Writes texts as strings of JSON have them, if that is requested.
#[derive(Clone, Copy, Drop)]
pub struct Escaping {
    /// Whether texts are escaped.
    pub escapes: bool,
}

impl Rewrites for Escaping {
    type Lists = Vec<u8>;

    ghost rewritten = { λ escaping kind symbol. escaped_if escaping.escapes };

    fn lists(alloc: Global) -> Vec<u8> {
        Vec::new(alloc)
    }

    fn keeps_texts(&self) -> bool {
        !self.escapes
    }

    fn rewrite(
        &self,
        text: &mut Vec<u8>,
        _kind: Kind,
        _symbol: &[u8],
        from: usize,
        out: &mut Vec<u8>,
    ) -> Result<(), AllocError> {
        if !self.escapes {
            return Ok(());
        }
        text.clear();
        push_escaped(&out[from..], text)?;
        out.truncate(from);
        out.extend_from_slice(text)
    }

    fn is_alike(&self, other: &Escaping) -> bool {
        self.escapes == other.escapes
    }
}
