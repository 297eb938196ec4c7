// Impls within hidden text: their paths are read while none of this text is written yet.

ghost use Rattle.std.specs.Prelude.{◌≡◌, ◌+◌, ◌∷◌, [], reverse, true, false};
ghost use Rattle.std.specs.Option.{OnSome};
ghost use Rattle.sym_direct.specs.Holes.{StandsAt};
ghost use Rattle.rust_direct.specs.declared.open.Step.TheVariants as steps;
ghost use Rattle.rust_direct.specs.Holes.{HasDisambiguator};
ghost use Rattle.rust_direct.specs.WriterInvariant.{IsWriting, IsUnbegun};
ghost use Rattle.rust_direct.specs.Awaits.{AwaitsPath};

use crate::direct::Direct;
use crate::open::Open;
use crate::showing::Showing;

impl Direct {
    /// Whether nothing hidden is written yet: only entries for paths wait, and the text of each
    /// begins with the text of the path that it waits for.
    fn is_unbegun(&self) -> bool
        ensures { result ≡ true → IsUnbegun (reverse self.now.waiting.list.items) }
    {
        let mut waiting = self.waiting.as_slice();
        'paths: while let Some((last, outer)) = waiting.split_last() {
            match last {
                Open::Nest { .. } => waiting = outer,
                Open::Generic { .. } => waiting = outer,
                Open::Other => return true,
                Open::Impl { .. } => return true,
                Open::TraitImpl { .. } => return true,
                Open::InnerImpl { .. } => return true,
                Open::InnerTraitImpl { .. } => return true,
                _ => return false,
            }
        }
        false
    }

    /// Begins an impl that isn't shown itself: the impl's path follows.
    // <path> = "M" <impl-path> <type>
    #[inline(never)]
    pub(crate) fn begin_inner_impl<S: Showing>(&mut self, _s: &[u8], behind: usize) -> Option<()>
        requires letter { StandsAt _s.now self.old.at (77 ∷ []) }
        requires behind { HasDisambiguator _s.now (self.old.at + 1) behind }
        requires awaits { AwaitsPath S.IS_BRIEF _s.now self.old }
        ensures { OnSome result (IsWriting S.IS_BRIEF _s.now self.new (steps.Path false)) }
    {
        if !self.is_unbegun() {
            return None;
        }
        let place = self.at;
        self.push_open(b"", Open::InnerImpl { place }, behind)?;
        Some(())
    }

    /// Begins an impl of a trait, where the impl isn't shown itself: the impl's path follows.
    // <path> = "X" <impl-path> <type> <path>
    #[inline(never)]
    pub(crate) fn begin_inner_trait_impl<S: Showing>(
        &mut self,
        _s: &[u8],
        behind: usize,
    ) -> Option<()>
        requires letter { StandsAt _s.now self.old.at (88 ∷ []) }
        requires behind { HasDisambiguator _s.now (self.old.at + 1) behind }
        requires awaits { AwaitsPath S.IS_BRIEF _s.now self.old }
        ensures { OnSome result (IsWriting S.IS_BRIEF _s.now self.new (steps.Path false)) }
    {
        if !self.is_unbegun() {
            return None;
        }
        let place = self.at;
        self.push_open(b"", Open::InnerTraitImpl { place }, behind)?;
        Some(())
    }
}
