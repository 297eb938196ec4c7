// The arguments of a generic path.
#![tactic(auto)]

ghost use Rattle.std.specs.Prelude.{◌≡◌, ◌<◌, ◌++◌, IfErr, OnOk, length};
ghost use Rattle.sym_core.specs.declared.refusal.Refusal.{Refusal};
ghost use Rattle.rust_spelled.specs.Arguments.{arguments_of};

use crate::rows::{behind, row_at, span};
use sym_core::Refusal;
use sym_parts::Span;
use sym_room::push_within;
use sym_shape::Row;

/// Adds the arguments of a generic path, which follow its parent (RFC 2603, `<generic-arg>`).
///
/// # Errors
///
/// `Memory` where the list couldn't grow.
pub(crate) fn push_arguments(
    elements: &mut Vec<Span>,
    rows: &[Row],
    path: usize,
) -> Result<(), Refusal>
    requires { path < length rows.now }
    ensures elements { OnOk result (elements.new.items ≡ elements.old.items ++ arguments_of rows.now path) }
    ensures refusals { IfErr result (λ refusal. refusal ≡ Refusal.Memory) }
{
    let end = behind(rows, path);
    let mut argument = behind(rows, path + 1);
    let mut left = rows.len();
    'arguments: while left > 0 {
        if argument >= end {
            return Ok(());
        }
        let own = row_at(rows, argument + 1);
        push_within(elements, span(row_at(rows, argument).from, own.to))?;
        argument = own.end as usize;
        left -= 1;
    }
    Ok(())
}
