// Short texts.
ghost use Rattle.std.specs.Prelude.{◌≡◌, ◌≤◌, ◌<◌, ◌++◌, ◌+◌, ◌-◌, ◌∷◌, [], ℕ, List, length, take, drop, IfOk, OnOk, Bool, true, false, if◌then◌else◌};
ghost use Rattle.short_names.specs.Short.{shortened, taken};

use crate::inlines::append_without;
use crate::writing::Writing;
use std::alloc::{AllocError, Global};

/// The lists with which texts are made short.
#[derive(Drop)]
pub struct Short {
    /// The text that is made short.
    text: Vec<u8>,
    writing: Writing,
}

/// Takes a text to be made short, without inline namespaces unless they are kept.
fn take_text(keeps_inline: bool, text: &[u8], out: &mut Vec<u8>) -> Result<(), AllocError>
    ensures { OnOk result (out.new.items ≡ taken keeps_inline text.now) }
{
    out.clear();
    if keeps_inline {
        out.extend_from_slice(text)?;
        return Ok(());
    }
    append_without(text, out)?;
    Ok(())
}

impl Short {
    /// A `Short` whose lists have no memory so far.
    pub fn new(alloc: Global) -> Short {
        Short {
            text: Vec::new(alloc),
            writing: Writing::new(alloc),
        }
    }

    /// Makes a text short: the bytes of a list from a place on.
    pub fn shorten(
        &mut self,
        keeps_inline: bool,
        from: usize,
        out: &mut Vec<u8>,
    ) -> Result<(), AllocError>
        requires { from ≤ length out.old.items }
        ensures short { OnOk result (out.new.items ≡ take from out.old.items ++ shortened keeps_inline (drop from out.old.items)) }
        ensures front { take from out.new.items ≡ take from out.old.items }
    {
        take_text(keeps_inline, &out[from..], &mut self.text)?;
        let pairs = self.writing.write(&self.text)?;
        out.truncate(from);
        if pairs {
            out.extend_from_slice(&self.writing.out)?;
            return Ok(());
        }
        out.extend_from_slice(&self.text)?;
        Ok(())
    }
}
