// The productions by their numbers.

ghost use Rattle.std.specs.Prelude.{◌≡◌};
ghost use Rattle.sym_link.specs.Threads.{IsCount, IsAhead};
ghost use Rattle.cpp_grammar.specs.Table.{wide};
ghost use Rattle.cpp_link.specs.Tables.{skips_parts};
ghost use Rattle.cpp_grammar.specs.Unfolding.{production_at};

use crate::tables::{PART_COUNTS, PRODUCTIONS, SKIPS_PARTS};
use cpp_grammar::production::Production;

/// The production with a number.
// It is looked up at each use: some 7 % of linking's instructions, with the other tables. A copy kept in the frame would need a proof that
// it is the production of the frame's rule.
pub fn production_of(number: u16) -> Production
    ensures { result ≡ production_at number }
{
    match PRODUCTIONS.get(number as usize) {
        Some(production) => *production,
        None => Production::Mark,
    }
}

/// How many parts the production with a number has.
#[inline(always)]
pub fn part_count(number: u16) -> usize
    ensures { IsCount wide number result }
{
    match PART_COUNTS.get(number as usize) {
        Some(count) => *count as usize,
        None => 0,
    }
}

/// Whether some part of the production with a number, other than the last, may have no row.
#[inline(always)]
fn skips_parts(number: u16) -> bool
    ensures { result ≡ skips_parts (production_at number) }
{
    match SKIPS_PARTS.get(number as usize) {
        Some(skips) => *skips,
        None => false,
    }
}

/// How many parts of the production with a number are before the next one that has a row: `held` parts have begun, and `after` parts follow
/// that one. In most productions each part has a row.
#[inline(always)]
pub fn parts_ahead(number: u16, held: usize, after: u8) -> usize
    ensures { IsAhead wide number held after result }
{
    if !skips_parts(number) {
        return held;
    }
    part_count(number).saturating_sub(after as usize + 1)
}
