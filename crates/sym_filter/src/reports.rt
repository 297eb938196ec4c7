// Reports on a text that is filtered: which of its words are left.
ghost use Rattle.std.specs.Prelude.{◌≡◌, ◌≢◌, ◌+◌, ◌-◌, ◌^◌, ◌<◌, List, ℕ, [], ◌∷◌, ◌++◌, OnOk, IfErr};
ghost use Rattle.sym_filter.specs.Entries.{Entry, left_word, newlines_in};
ghost use Rattle.sym_filter.specs.Streams.{writer_faults};

use crate::streams::FilterFault;

/// Takes a text's bytes and, among them, each word that names a symbol and has no text, in the text's order.
pub trait Report {
    // how often the report has failed
    ghost failure_count: { Self → ℕ };
    // the report was given these entries
    ghost Tells: { Self → Self → List Entry → Type 0 };
    // the report was given a beginning of these entries, the last of them maybe in part
    ghost Stops: { Self → Self → List Entry → Type 0 };

    /// Takes bytes of the text. The bytes that end a word come after the word, if it is left.
    fn passes(&mut self, bytes: &[u8])
        ensures tells { Tells self.old self.new (newlines_in bytes.now) }
        ensures failures { failure_count self.new ≡ failure_count self.old };

    /// Takes a word that names a symbol and has no text.
    fn leaves(&mut self, word: &[u8]) -> Result<(), FilterFault>
        requires { failure_count self.old < 2 ^ 64 - 1 }
        ensures tells { OnOk result (Tells self.old self.new (left_word word.now ∷ [])) }
        ensures stops { IfErr result (λ fault. (fault ≢ FilterFault.Read) × Stops self.old self.new (left_word word.now ∷ [])) }
        ensures failures { failure_count self.new ≡ failure_count self.old + writer_faults result };

    // laws
    ghost tells_none: { (report : Self) → Tells report report [] };

    ghost tells_both: { (old mid new : Self) (entries more : List Entry) → Tells old mid entries → Tells mid new more → Tells old new (entries ++ more) };

    ghost stops_within: { (old new : Self) (entries more : List Entry) → Tells old new entries → Stops old new (entries ++ more) };

    ghost stops_later: { (old mid new : Self) (entries more : List Entry) → Tells old mid entries → Stops mid new more → Stops old new (entries ++ more) };

    ghost stops_before: { (old new : Self) (entries more : List Entry) → Stops old new entries → Stops old new (entries ++ more) };
}

/// A report that does nothing.
#[derive(Clone, Copy, Debug, PartialEq, Eq)]
pub struct Quiet;

impl Report for Quiet {
    ghost failure_count = { λ _. 0 };

    ghost Tells = { λ _ _ _. Unit {0} };

    ghost Stops = { λ _ _ _. Unit {0} };

    ghost tells_none = { λ _. tt };

    ghost tells_both = { λ _ _ _ _ _ _ _. tt };

    ghost stops_within = { λ _ _ _ _ _. tt };

    ghost stops_later = { λ _ _ _ _ _ _ _. tt };

    ghost stops_before = { λ _ _ _ _ _. tt };

    #[inline(always)]
    fn passes(&mut self, _bytes: &[u8]) {}

    #[inline(always)]
    fn leaves(&mut self, _word: &[u8]) -> Result<(), FilterFault> {
        Ok(())
    }
}
