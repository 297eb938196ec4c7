// What holds of the answer to every symbol.
ghost use Rattle.std.specs.Prelude.{◌≡◌, ◌≢◌, ℕ, List, Result, Ok, Err, IfErr};
ghost use Rattle.sym_core.specs.declared.refusal.Refusal.{Refusal};
ghost use Rattle.sym_core.specs.declared.refusal.Refusal.TheVariants.{TooLong};
ghost use Rattle.sym_shape.specs.Decided.{AreBytes};
ghost use Rattle.sym_print.specs.declared.detail.Detail.{Detail};
ghost use Rattle.sym_demangle.specs.Mangled.{IsAnswer, IsReading, HasReason, answer, answer_of_symbol};

use crate::mangling::Mangling;

/// Each list of bytes has its answer.
pub fn each_has_an_answer<M: Mangling>()
    ensures { (detail : Detail) (s : List ℕ) (limit : ℕ) → AreBytes s → IsAnswer M.mangled detail s limit (answer M.mangled detail s limit) }
{}

/// A symbol has one answer: for a list of bytes, the one that `answer` gives.
pub fn one_answer<M: Mangling>()
    ensures one { (detail : Detail) (s : List ℕ) (limit : ℕ) (a b : Result (List ℕ) Refusal) → IsAnswer M.mangled detail s limit a → IsAnswer M.mangled detail s limit b → a ≡ b }
    ensures given { (detail : Detail) (s : List ℕ) (limit : ℕ) (result : Result (List ℕ) Refusal) → AreBytes s → IsAnswer M.mangled detail s limit result → result ≡ answer M.mangled detail s limit }
{}

/// What a symbol reads as decides its answer at every limit and in each detail: the text of its
/// tree, or `TooLong`. A symbol that is refused when it is read has that refusal as its answer, and
/// the refusal is never `TooLong`.
pub fn read_answers<M: Mangling>()
    ensures answered { (detail : Detail) (s : List ℕ) (limit : ℕ) (result : Result M.Whole Refusal) → AreBytes s → IsReading M.mangled s result → answer M.mangled detail s limit ≡ answer_of_symbol M.mangled detail limit result }
    ensures read { (detail : Detail) (s : List ℕ) (limit : ℕ) (symbol : M.Whole) → AreBytes s → IsReading M.mangled s (Ok symbol) → IfErr (answer M.mangled detail s limit) (λ refusal. refusal ≡ TooLong) }
    ensures refused { (detail : Detail) (s : List ℕ) (limit : ℕ) (refusal : Refusal) → AreBytes s → IsReading M.mangled s (Err refusal) → (answer M.mangled detail s limit ≡ Err refusal) × (refusal ≢ TooLong) }
{
    M::refuses_bad_tokens();
}

/// The refusal of a reading or of an answer has its reason in the symbol. What isn't well shaped is `Malformed` at its first bad byte; what
/// is well shaped has a bad token or a text that costs too much.
pub fn each_refusal_has_a_reason<M: Mangling>()
    ensures read { (s : List ℕ) (refusal : Refusal) → IsReading M.mangled s (Err refusal) → HasReason M.mangled.table s refusal }
    ensures answered { (detail : Detail) (s : List ℕ) (limit : ℕ) (refusal : Refusal) → IsAnswer M.mangled detail s limit (Err refusal) → HasReason M.mangled.table s refusal }
{
    M::refuses_bad_tokens();
}
