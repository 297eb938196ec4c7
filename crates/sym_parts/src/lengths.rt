// The lengths of the texts that the parts of a layout's items print.
#![tactic(auto)]

ghost use Rattle.std.specs.Prelude.{◌≡◌, ◌<◌, ◌≤◌, ◌⊎◌, length, Err, IfErr, IfOk, OnOk};
ghost use Rattle.sym_core.specs.declared.refusal.Refusal.{Refusal};
ghost use Rattle.sym_print.specs.Joined.{joined, text_of_part, cost_of_part};
ghost use Rattle.sym_print.specs.Unshared.{text_of};
ghost use Rattle.sym_parts.specs.Split.{ArePayable};

use crate::split::{Split, first_of};
use std::alloc::Global;
use sym_core::Refusal;
use sym_print::{Layout, Part, Printer};

/// How many bytes a part prints, if it costs at most the limit.
///
/// # Errors
///
/// `TooLong` only where the part costs more, and `Memory`.
pub fn length_of_part<Y: Layout>(
    alloc: Global,
    y: &Y,
    part: &Part<Y::Ctx>,
    limit: u32,
) -> Result<u32, Refusal>
    requires { Y.may_come y.now part.now }
    ensures length { IfOk result (λ found. found ≡ length (text_of_part (Y.unshared y.now) (Y.bytes_of y.now) part.now)) }
    ensures within { OnOk result (cost_of_part (Y.unshared y.now) (Y.bytes_of y.now) part.now ≤ limit) }
    ensures few { IfOk result (λ found. found ≤ limit) }
    ensures refusals { IfErr result (λ r. (r ≡ Refusal.TooLong) ⊎ (r ≡ Refusal.Memory)) }
    ensures too_long { result ≡ Err Refusal.TooLong → limit < cost_of_part (Y.unshared y.now) (Y.bytes_of y.now) part.now }
{
    match part {
        Part::Sub(item) => {
            let mut printer = Printer::new(alloc, *item, limit)?;
            printer.run(y)?;
            Ok(printer.text().len() as u32)
        }
        _ => {
            let length = y.bytes(part).len();
            if length > limit as usize {
                return Err(Refusal::TooLong);
            }
            Ok(length as u32)
        }
    }
}

/// How many bytes a part prints; it costs at most `most`.
///
/// # Errors
///
/// `Memory`.
pub fn length_of<Y: Layout>(
    y: &Y,
    alloc: Global,
    part: &Part<Y::Ctx>,
    most: u32,
) -> Result<u32, Refusal>
    requires may_come { Y.may_come y.now part.now }
    requires paid { cost_of_part (Y.unshared y.now) (Y.bytes_of y.now) part.now ≤ most }
    ensures length { IfOk result (λ n. n ≡ length (text_of_part (Y.unshared y.now) (Y.bytes_of y.now) part.now)) }
    ensures refusals { IfErr result (λ refusal. refusal ≡ Refusal.Memory) }
{
    length_of_part(alloc, y, part, most)
}

/// How many bytes parts print; together they cost at most `most`.
///
/// # Errors
///
/// `Memory`.
pub fn length_of_all<Y: Layout>(
    y: &Y,
    alloc: Global,
    parts: &[Part<Y::Ctx>],
    most: u32,
) -> Result<u32, Refusal>
    requires { ArePayable (Y.unshared y.now) (Y.bytes_of y.now) (Y.may_come y.now) most parts.now }
    ensures length { IfOk result (λ n. n ≡ length (text_of (joined (Y.unshared y.now) (Y.bytes_of y.now) parts.now))) }
    ensures refusals { IfErr result (λ refusal. refusal ≡ Refusal.Memory) }
{
    let mut length = 0;
    let mut left = parts;
    'parts: loop {
        match first_of(y, left, most) {
            Split::Nothing => return Ok(length),
            Split::Text(text, rest) => {
                length += length_of(y, alloc, text, most)?;
                left = rest;
            }
            Split::Item(item, rest) => {
                length += length_of(y, alloc, &Part::Sub(*item), most)?;
                left = rest;
            }
        }
    }
}
