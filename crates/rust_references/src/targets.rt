// The places that references name, and what has ended at them.

ghost use Rattle.std.specs.Prelude.{◌≡◌, ◌≤◌, ◌-◌};
ghost use Rattle.rust_grammar.specs.Unfold.{At, referred, ended_at};

/// What a back reference to a place denotes: the node of what began there and has ended.
#[derive(Clone, Copy)]
pub enum Target {
    Nothing,
    Path(u32),
    Type(u32),
    Constant(u32),
}

/// The number by which a reference names a place of a symbol, as in `B0_`: it counts the bytes after `_R`.
pub fn number_of(place: u64) -> u64
    ensures value { result ≡ place - 2 }
    ensures names { 2 ≤ place → (at : At) → referred at result ≡ ended_at at.ended place }
{
    place.saturating_sub(2)
}
