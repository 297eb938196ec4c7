// What a grammar gives the reader.
ghost use Rattle.std.specs.Prelude.{◌≡◌, ℕ, ◌+◌, ◌<◌, ◌∷◌, [], List, length, IfSome, MatchOption};
ghost use Rattle.sym_shape.specs.declared.rule.Sym.{Sym};
ghost use Rattle.sym_shape.specs.declared.rule.Sym.TheVariants.{Kind};
ghost use Rattle.sym_shape.specs.Listing.{StandsAt};
ghost use Rattle.sym_shape.specs.Table.{Table, symbols_of};
ghost use Rattle.sym_shape.specs.Law.{IsLawful};

use crate::rule::{Rule, Sym};
use sym_core::NameClass;

/// A grammar that one byte of look-ahead decides.
///
/// Kinds are the numbers below the table's `kinds`, and kind 0 is the start kind. A kind begins with the bytes at which `rule` answers a
/// rule. Only the table says which bytes may follow a kind (`after`), how many chains may rest on one another from it (`rank`), and how
/// high its lowest tree is (`height`): laws speak of these members, but no code reads them.
pub trait Grammar {
    /// The grammar, which depends only on the type.
    ghost table: { Table };

    /// For each place of the list, the symbols from there on to the end of their rule.
    ghost listed: { ℕ → List Sym };

    /// The first place holds only the start kind.
    ghost start: { listed 0 ≡ Kind 0 ∷ [] };

    /// The rule that a kind takes at a byte.
    fn rule(&self, kind: u16, byte: u8) -> Option<Rule>
        requires { kind < table.kinds }
        ensures { result ≡ table.rule kind byte };

    /// Where the symbols of that rule are in the grammar's list of symbols.
    fn place(&self, kind: u16, byte: u8) -> u32
        requires { kind < table.kinds }
        ensures { IfSome (table.rule kind byte) (λ rule. listed result ≡ symbols_of rule) };

    /// The symbol at a place of the list, or none where a rule's symbols end.
    fn symbol(&self, place: u32) -> Option<Sym>
        ensures { MatchOption result (listed place ≡ []) (StandsAt listed place) };

    /// How many symbols follow the one at a place within its rule.
    fn after(&self, place: u32) -> u8
        requires { (x : Sym) × StandsAt listed place x }
        ensures { result ≡ length (listed (place + 1)) };

    /// Whether the kind may spell no bytes.
    fn may_be_empty(&self, kind: u16) -> bool
        requires { kind < table.kinds }
        ensures { result ≡ table.may_be_empty kind };

    /// How the grammar's names are spelled.
    fn name_class(&self) -> NameClass
        ensures { result ≡ table.names };

    ghost lawful: { IsLawful table };
}
