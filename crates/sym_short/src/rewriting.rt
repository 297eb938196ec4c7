// The demangler whose texts are rewritten.
ghost use Rattle.std.specs.Prelude.{◌≡◌, ◌≤◌, ◌++◌, List, ℕ, length, take, drop, true, OnOk, OnErr};
ghost use Rattle.sym_core.specs.Number.{FitsSymbol};
ghost use Rattle.sym_filter.specs.declared.kinds.Kind.{Kind as Kind-type};
ghost use Rattle.sym_short.specs.Rewriting.{answers_with};

use std::alloc::{AllocError, Global};
use sym_core::Refusal;
use sym_filter::{Demangled, Demangler, Kind, Lang};
use sym_recent::Alike;

/// Rewrites texts of symbols.
pub trait Rewrites {
    /// The lists on which texts are rewritten, kept from one text to the next.
    type Lists: Drop;

    // what the text of a word's symbol becomes
    ghost rewritten: { Self → Kind-type → List ℕ → List ℕ → List ℕ };

    /// Lists on which texts are rewritten, without memory so far.
    fn lists(alloc: Global) -> Self::Lists;

    /// Whether each text stays as it is, as far as the settings show this.
    fn keeps_texts(&self) -> bool
        ensures { result ≡ true → (kind : Kind-type) (symbol text : List ℕ) → rewritten self.now kind symbol text ≡ text }
    {
        false
    }

    /// Rewrites the text of a word's symbol, which is the bytes of a list from a place on.
    ///
    /// # Errors
    ///
    /// Where memory runs out. The text has no meaning then.
    fn rewrite(
        &self,
        lists: &mut Self::Lists,
        kind: Kind,
        symbol: &[u8],
        from: usize,
        out: &mut Vec<u8>,
    ) -> Result<(), AllocError>
        requires fits { FitsSymbol symbol.now }
        requires within { from ≤ length out.old.items }
        ensures text { OnOk result (out.new.items ≡ take from out.old.items ++ rewritten self.now kind symbol.now (drop from out.old.items)) }
        ensures front { take from out.new.items ≡ take from out.old.items };

    /// Whether another value of the type gives the same texts, as far as the settings of both show this.
    fn is_alike(&self, other: &Self) -> bool
        ensures { result ≡ true → (kind : Kind-type) (symbol text : List ℕ) → rewritten self.now kind symbol text ≡ rewritten other.now kind symbol text };
}

/// A demangler whose texts are those of another, rewritten. Refusals and counts are those of the other.
#[derive(Clone, Copy, Drop)]
pub struct Rewriting<D, R> {
    pub demangler: D,
    /// What rewrites texts.
    pub rewrite: R,
}

/// The lists of a demangler, and those on which its texts are rewritten.
#[derive(Drop)]
pub struct RewritingLists<D: Demangler, R: Rewrites> {
    lists: D::Lists,
    rewrite: R::Lists,
}

impl<D: Demangler, R: Rewrites> RewritingLists<D, R> {
    /// The lists over those of a demangler.
    pub fn new(alloc: Global, lists: D::Lists) -> RewritingLists<D, R> {
        RewritingLists {
            lists,
            rewrite: R::lists(alloc),
        }
    }
}

/// Rewrites the text of a symbol, which is the bytes of a list from a place on. Where memory runs out, the text is removed.
fn rewrite_or_remove<R: Rewrites>(
    rewrite: &R,
    lists: &mut R::Lists,
    kind: Kind,
    symbol: &[u8],
    from: usize,
    out: &mut Vec<u8>,
) -> Result<(), AllocError>
    requires fits { FitsSymbol symbol.now }
    requires within { from ≤ length out.old.items }
    ensures text { OnOk result (out.new.items ≡ take from out.old.items ++ R.rewritten rewrite.now kind symbol.now (drop from out.old.items)) }
    ensures gone { OnErr result (out.new.items ≡ take from out.old.items) }
{
    match rewrite.rewrite(lists, kind, symbol, from, out) {
        Ok(()) => Ok(()),
        Err(error) => {
            out.truncate(from);
            Err(error)
        }
    }
}

impl<D: Demangler, R: Rewrites> Demangler for Rewriting<D, R> {
    type Lists = RewritingLists<D, R>;

    ghost answer = { λ rewriting. answers_with (R.rewritten rewriting.rewrite) (D.answer rewriting.demangler) };

    ghost are_counts = { λ rewriting lang symbol counts. D.are_counts rewriting.demangler lang symbol counts };

    fn lists(&self, alloc: Global) -> Result<RewritingLists<D, R>, AllocError> {
        let lists = self.demangler.lists(alloc)?;
        Ok(RewritingLists::new(alloc, lists))
    }

    fn read_ahead(&self, lists: &mut RewritingLists<D, R>, lang: Lang, front: &[u8]) {
        self.demangler.read_ahead(&mut lists.lists, lang, front);
    }

    fn demangle(
        &self,
        lists: &mut RewritingLists<D, R>,
        kind: Kind,
        symbol: &[u8],
        out: &mut Vec<u8>,
    ) -> Demangled {
        let from = out.len();
        match self.demangler.demangle(&mut lists.lists, kind, symbol, out) {
            Demangled::Text(counts) => {
                let lists = &mut lists.rewrite;
                match rewrite_or_remove(&self.rewrite, lists, kind, symbol, from, out) {
                    Ok(()) => Demangled::Text(counts),
                    Err(_) => Demangled::Refused(Refusal::Memory),
                }
            }
            Demangled::TooLong(counts) => Demangled::TooLong(counts),
            Demangled::Refused(refusal) => Demangled::Refused(refusal),
        }
    }

    #[inline(always)]
    fn append(
        &self,
        lists: &mut RewritingLists<D, R>,
        kind: Kind,
        symbol: &[u8],
        out: &mut Vec<u8>,
    ) -> Result<(), Refusal> {
        if self.rewrite.keeps_texts() {
            return self.demangler.append(&mut lists.lists, kind, symbol, out);
        }
        let from = out.len();
        self.demangler.append(&mut lists.lists, kind, symbol, out)?;
        rewrite_or_remove(&self.rewrite, &mut lists.rewrite, kind, symbol, from, out)?;
        Ok(())
    }
}

impl<D: Alike, R: Rewrites> Alike for Rewriting<D, R> {
    fn is_alike(&self, other: &Rewriting<D, R>) -> bool {
        self.rewrite.is_alike(&other.rewrite) && self.demangler.is_alike(&other.demangler)
    }
}
