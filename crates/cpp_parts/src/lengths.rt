// The lengths of the texts that parts print.
#![tactic(auto)]

ghost use Rattle.std.specs.Prelude.{◌≡◌, ◌≤◌, length, IfOk, IfErr};
ghost use Rattle.sym_core.specs.declared.refusal.Refusal.{Refusal};
ghost use Rattle.sym_print.specs.Joined.{text_of_part, cost_of_part};
ghost use Rattle.sym_print.specs.Unshared.{text_of};
ghost use Rattle.cpp_layout.specs.Layout.{unshared_of, bytes_of_part, MayBeAsked};
ghost use Rattle.cpp_parts.specs.Tasks.{ArePayable, printed_by};

use crate::split::{Split, first_of};
use cpp_layout::{Context, Symbol};
use std::alloc::Global;
use sym_core::Refusal;
use sym_parts::length_of_part;
use sym_print::Part;

/// How many bytes a part prints. The part costs at most this much.
///
/// # Errors
///
/// `Memory`.
pub(crate) fn length_of(
    y: &Symbol,
    alloc: Global,
    part: &Part<Context>,
    most: u32,
) -> Result<u32, Refusal>
    requires may_come { MayBeAsked y.now part.now }
    requires paid { cost_of_part (unshared_of y.now) (bytes_of_part y.now) part.now ≤ most }
    ensures length { IfOk result (λ n. n ≡ length (text_of_part (unshared_of y.now) (bytes_of_part y.now) part.now)) }
    ensures refusals { IfErr result (λ refusal. refusal ≡ Refusal.Memory) }
{
    length_of_part(alloc, y, part, most)
}

/// How many bytes parts print. Each part costs at most this much.
///
/// # Errors
///
/// `Memory`.
pub(crate) fn length_of_all(
    y: &Symbol,
    alloc: Global,
    parts: &[Part<Context>],
    most: u32,
) -> Result<u32, Refusal>
    requires { ArePayable y.now most parts.now }
    ensures length { IfOk result (λ n. n ≡ length (text_of (printed_by y.now parts.now))) }
    ensures refusals { IfErr result (λ refusal. refusal ≡ Refusal.Memory) }
{
    let mut length = 0;
    let mut left = parts;
    'parts: loop {
        match first_of(y, left, most) {
            Split::Nothing => return Ok(length),
            Split::Text(text, rest) => {
                length += length_of(y, alloc, &text, most)?;
                left = rest;
            }
            Split::Item(item, rest) => {
                length += length_of(y, alloc, &Part::Sub(item), most)?;
                left = rest;
            }
        }
    }
}
