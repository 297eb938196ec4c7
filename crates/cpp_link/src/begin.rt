// A rule begins.

ghost use Rattle.std.specs.Prelude.{◌≡◌, ◌-◌, ◌^◌, ◌<◌, ◌≤◌, length, get_or, slice_range, nat_lt, IfErr};
ghost use Rattle.sym_core.specs.declared.refusal.Refusal.TheVariants as refusals;
ghost use Rattle.sym_shape.specs.declared.rule.Row.{Row};
ghost use Rattle.sym_link.specs.Threads.{BeginsIn};
ghost use Rattle.cpp_grammar.specs.Unfolding.{production_at};
ghost use Rattle.cpp_grammar.specs.Values.{local_number};
ghost use Rattle.cpp_link.specs.Numbered.{is_numbered, IsRange};
ghost use Rattle.cpp_link.specs.View.{Surrounds, cpp_view};

use crate::linked::Linked;
use crate::part::Surroundings;
use crate::tables::{LAMBDA, UNNAMED};
use sym_core::{Refusal, value10};
use sym_shape::rule::Row;

/// Whether the production with this number is a lambda or an unnamed type: its last part is a
/// number that counts as one more than its digits. The production isn't looked up, since this
/// function is called for each rule.
#[inline(always)]
fn is_numbered(number: u16) -> bool
    ensures { result ≡ is_numbered (production_at number) }
{
    number == LAMBDA || number == UNNAMED
}

/// Whether the number of a lambda or an unnamed type, with these digits, has 64 bits at most.
#[tactic(auto, unfolding(cpp_grammar::specs::Values::local_number))]
fn fits(digits: &[u8]) -> bool
    ensures { result ≡ nat_lt (local_number digits.now) (2 ^ 64) }
{
    match value10(digits) {
        Some(counted) => counted < u64::MAX,
        None => false,
    }
}

/// Whether the number in the last row of a row's rule has at most 64 bits. If there is no such row,
/// the answer is no.
fn last_fits(symbol: &[u8], rows: &[Row], row: Row) -> bool
    ensures { row.end - 1 < length rows.now → (other : Row) → IsRange symbol.now (get_or rows.now (row.end - 1) other)
        → result ≡ nat_lt (local_number (slice_range symbol.now (get_or rows.now (row.end - 1) other).from (get_or rows.now (row.end - 1) other).to)) (2 ^ 64) }
{
    let Some(last) = rows.get((row.end as usize).saturating_sub(1)) else {
        return false;
    };
    let Some(digits) = symbol.get(last.from as usize..last.to as usize) else {
        return false;
    };
    fits(digits)
}

impl Linked {
    /// The rule of a row begins, in these surroundings. The number of a lambda or an unnamed type is tested (ABI 5.1.8).
    ///
    /// # Errors
    ///
    /// `BadValue` at a number that has more than 64 bits.
    #[inline(always)]
    pub fn begin_rule(
        &self,
        symbol: &[u8],
        rows: &[Row],
        context: Surroundings,
        row: Row,
    ) -> Result<Surroundings, Refusal>
        requires place { row.from < length symbol.now }
        requires end { row.end ≤ length rows.now }
        ensures begins { BeginsIn (cpp_view symbol.now) symbol.now (Surrounds symbol.now) rows.now self.now self.now context row result }
        ensures refused { IfErr result (λ e. e ≡ refusals.Memory → ⊥) }
    {
        let kept = context.with_packs(self.packs);
        if !is_numbered(row.rule) {
            return Ok(kept);
        }
        // the `U` comes first, so no rule with such a number begins a symbol
        let Some(at) = row.from.checked_sub(1) else {
            return Ok(kept);
        };
        if last_fits(symbol, rows, row) {
            return Ok(kept);
        }
        Err(Refusal::BadValue { at })
    }
}
