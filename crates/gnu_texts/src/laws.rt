// What follows from the definition of spelled texts.
ghost use Rattle.std.specs.Prelude.{ℕ, List};
ghost use Rattle.gnu_texts.specs.Laws.{AddsBlanks, ComesBack, IsBounded, IsLessThanDouble, IsNoShorter, KeepsBytes, PartsBrackets, ReachesBound, Stays};

/// No spelled text is shorter than its text, and none is more than ten times as long. A text in
/// which only brackets are spelled differently becomes less than twice as long.
pub fn spelled_texts_are_bounded()
    ensures no_shorter { (text : List ℕ) → IsNoShorter text }
    ensures bounded { (text : List ℕ) → IsBounded text }
    ensures reached { (count : ℕ) → ReachesBound count }
    ensures double { (text : List ℕ) → IsLessThanDouble text }
{}

/// A text in which no place is spelled differently stays as it is. A text without a suffix and without names that are written differently
/// only gets blanks before brackets, and leaving these out gives back the text. In every text, bytes are only added, except for a suffix's
/// parentheses and the type of `nullptr`.
pub fn spelled_texts_keep_bytes()
    ensures stays { (text : List ℕ) → Stays text }
    ensures blanks { (text : List ℕ) → AddsBlanks text }
    ensures parted { (text : List ℕ) → PartsBrackets text }
    ensures back { (text : List ℕ) → ComesBack text }
    ensures bytes { (text : List ℕ) → KeepsBytes text }
{}
