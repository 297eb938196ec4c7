// Construction tables: the virtual tables of a base class while a class derived from it is constructed.

ghost use Rattle.std.specs.Prelude.{◌≡◌, ◌∷◌, [], false};
ghost use Rattle.std.specs.Option.{IfSome};
ghost use Rattle.cpp_direct.specs.Names.{IsReadable};
ghost use Rattle.cpp_direct.specs.Bytes.{is_local, is_guard};
ghost use Rattle.cpp_direct.specs.declared.open.Open.TheVariants as opens;
ghost use Rattle.cpp_direct.specs.Holes.{StandsAt};
ghost use Rattle.cpp_direct.specs.WriterInvariant.{IsWriting};
ghost use Rattle.cpp_direct.specs.MidStep.{IsElementRead, IsFresh};
ghost use Rattle.cpp_direct.specs.Symbol.{symbol_by};

use crate::direct::Direct;
use crate::grammar::Grammar;
use crate::open::{Open, Step};

impl Direct {
    /// Reads the first bytes of the symbol of a construction table, in the wide grammar, up to the first type in it.
    // <special-name> ::= TC <derived type> <offset number> _ <base type>
    #[inline(never)]
    pub(crate) fn begin_table<G: Grammar>(&mut self, _s: &[u8]) -> Option<Step>
        requires fresh { IsFresh self.old }
        requires starts { StandsAt _s.now 0 (95 ∷ 90 ∷ []) }
        requires apart { is_local _s.now ≡ false }
        requires other { is_guard _s.now ≡ false }
        requires letter { StandsAt _s.now 2 (84 ∷ []) }
        requires kind { StandsAt _s.now 3 (67 ∷ []) }
        ensures { IfSome result (IsWriting (symbol_by G.IS_WIDE G.IS_BARE G.IS_BRIEF _s.now) self.new) }
    {
        if !G::IS_WIDE {
            return None;
        }
        self.at = 4;
        self.waiting.push(Open::Derived)?;
        Some(Step::Type)
    }

    /// The derived class of a construction table is read. The base class follows the offset, and is
    /// written before the derived class.
    // <special-name> ::= TC <derived type> <offset number> _ <base type>
    #[inline(never)]
    pub(crate) fn derived_ended<G: Grammar>(&mut self, s: &[u8]) -> Option<Step>
        requires fits { IsReadable s.now }
        requires read { IsElementRead (symbol_by G.IS_WIDE G.IS_BARE G.IS_BRIEF s.now) self.old opens.Derived }
        ensures { IfSome result (IsWriting (symbol_by G.IS_WIDE G.IS_BARE G.IS_BRIEF s.now) self.new) }
    {
        let to = self.text.end();
        self.distance(s)?;
        let _open = self.waiting.pop();
        self.push(b"construction vtable for ")?;
        self.waiting.push(Open::Base { to })?;
        Some(Step::Type)
    }

    /// The base class of a construction table is read: the derived class is written once more, after it.
    // <special-name> ::= TC <derived type> <offset number> _ <base type>
    #[inline(never)]
    pub(crate) fn base_ended<G: Grammar>(&mut self, s: &[u8], to: u32) -> Option<Step>
        requires fits { IsReadable s.now }
        requires read { IsElementRead (symbol_by G.IS_WIDE G.IS_BARE G.IS_BRIEF s.now) self.old (opens.Base to) }
        ensures { IfSome result (IsWriting (symbol_by G.IS_WIDE G.IS_BARE G.IS_BRIEF s.now) self.new) }
    {
        self.push(b"-in-")?;
        self.repeat(0, to)?;
        self.cut(s, to)?;
        self.finish::<G>(s)
    }
}
