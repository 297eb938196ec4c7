// Clones of functions, for transactions and for code outside of transactions. Only the wide grammar has them.

ghost use Rattle.std.specs.Prelude.{◌≡◌, ◌⊎◌, ◌∷◌, [], false};
ghost use Rattle.std.specs.Option.{IfSome};
ghost use Rattle.cpp_grammar.specs.Parts.{clone_text};
ghost use Rattle.cpp_direct.specs.Bytes.{is_local, is_guard};
ghost use Rattle.cpp_direct.specs.Names.{IsReadable};
ghost use Rattle.cpp_direct.specs.Holes.{StandsAt};
ghost use Rattle.cpp_direct.specs.WriterInvariant.{IsWriting};
ghost use Rattle.cpp_direct.specs.MidStep.{IsFresh};
ghost use Rattle.cpp_direct.specs.Symbol.{symbol_by};

use crate::direct::Direct;
use crate::grammar::Grammar;
use crate::open::Step;
use crate::tokens::byte_at;

/// The text before the encoding of a clone with this letter.
#[tactic(auto, unfolding(cpp_grammar::specs::Parts::clone_text))]
fn clone_text(letter: u8) -> Option<&'static [u8]>
    ensures { IfSome result (λ text. ((letter ≡ 116) ⊎ (letter ≡ 110)) × (text.now ≡ clone_text letter)) }
{
    match letter {
        b't' => Some(b"transaction clone for "),
        b'n' => Some(b"non-transaction clone for "),
        _ => None,
    }
}

impl Direct {
    /// The first bytes of the symbol of a clone.
    // <special-name> ::= GTt <encoding> | GTn <encoding>
    #[inline(never)]
    pub(crate) fn begin_clone<G: Grammar>(&mut self, s: &[u8]) -> Option<Step>
        requires fits { IsReadable s.now }
        requires fresh { IsFresh self.old }
        requires apart { is_local s.now ≡ false }
        requires other { is_guard s.now ≡ false }
        requires starts { StandsAt s.now 0 (95 ∷ 90 ∷ []) }
        requires first { StandsAt s.now 2 (71 ∷ []) }
        ensures { IfSome result (IsWriting (symbol_by G.IS_WIDE G.IS_BARE G.IS_BRIEF s.now) self.new) }
    {
        if !G::IS_WIDE || byte_at(s, 3) != b'T' {
            return None;
        }
        let text = clone_text(byte_at(s, 4))?;
        self.push(text)?;
        self.at = 5;
        self.begin_encoding::<G>(s)
    }
}
