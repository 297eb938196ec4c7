// What holds of answers with parts.
ghost use Rattle.std.specs.Prelude.{◌≡◌, ℕ, IfOk, List, length};
ghost use Rattle.std.specs.List.{All};
ghost use Rattle.sym_print.specs.declared.detail.Detail.{Detail};
ghost use Rattle.sym_shape.specs.Decided.{AreBytes};
ghost use Rattle.sym_demangle.specs.Mangled.{answer};
ghost use Rattle.sym_parts.specs.Placed.{ArePlaced};
ghost use Rattle.sym_parts.specs.Within.{IsSpelledWithin};
ghost use Rattle.symbol_parts.specs.Parsed.{parsed, without_parts};

use crate::marked::Marked;

/// Without its parts, an answer with parts is the answer for the symbol: the same text, or the same refusal.
pub fn text_is_the_answer<M: Marked>()
    ensures { (detail : Detail) (s : List ℕ) (limit : ℕ) → AreBytes s → without_parts (parsed M.over M.marking detail s limit) ≡ answer M.mangled detail s limit }
{}

/// Each part is a slice of the text. The parts are in the order of their starts; any two parts are apart, or one is within the other. The
/// bytes that spell a part are bytes of the symbol.
pub fn parts_are_placed<M: Marked>()
    ensures text { (detail : Detail) (s : List ℕ) (limit : ℕ) → AreBytes s → IfOk (parsed M.over M.marking detail s limit) (λ p. ArePlaced (length p.text) p.parts) }
    ensures bytes { (detail : Detail) (s : List ℕ) (limit : ℕ) → AreBytes s → IfOk (parsed M.over M.marking detail s limit) (λ p. All (IsSpelledWithin (length s)) p.parts) }
{}
