// The bytes of a symbol.

ghost use Rattle.std.specs.Prelude.{◌≢◌, ◌∷◌, []};
ghost use Rattle.sym_direct.specs.Holes.{StandsAt};

/// The byte at a place, or 0 after the end.
#[inline(always)]
pub fn byte_at(s: &[u8], at: usize) -> u8
    ensures { result ≢ 0 → StandsAt s.now at (result ∷ []) }
{
    if at < s.len() { s[at] } else { 0 }
}
