//! How lifetimes are counted in Rust symbols (RFC 2603): a symbol counts them from the innermost binder, a text from the outermost.
#![tactic(auto)]

ghost use Rattle.std.specs.Prelude.{◌≡◌, ◌-◌};

/// The number of a lifetime in a text, where n lifetimes are bound: the outermost one has the
/// number 0. In the symbol, the innermost one has the number 1.
#[inline(always)]
pub fn from_outermost(bound: u64, lifetime: u64) -> u64
    ensures { result ≡ bound - lifetime }
{
    bound.saturating_sub(lifetime)
}

/// How many lifetimes must be bound around a construct with a binder of n lifetimes, given how many
/// must be bound within it.
#[inline(always)]
pub fn around_binder(within: u64, binder: u64) -> u64
    ensures { result ≡ within - binder }
{
    within.saturating_sub(binder)
}
