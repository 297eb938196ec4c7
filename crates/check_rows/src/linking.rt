// Linkers, step by step.

ghost use Rattle.std.specs.Prelude.{◌≡◌, true, IfOk, IfSome};
ghost use Rattle.sym_core.specs.Number.{FitsSymbol};

use crate::feeding::{fed, most_steps};
use crate::mangling::Calls;
use std::alloc::Global;
use sym_core::Refusal;
use sym_demangle::Linker;

/// `Some(true)` if a finished linker took this many steps and answers again that nothing is left to do; otherwise none.
fn done_again<M: Calls>(linker: &mut Linker<M>, taken: usize) -> Result<Option<bool>, Refusal>
    ensures { IfOk result (λ step. IfSome step (λ done. done ≡ true → linker.new.done ≡ true)) }
{
    if linker.steps() as usize == taken && linker.step()? {
        Ok(Some(true))
    } else {
        Ok(None)
    }
}

/// Whether a linker refuses for this reason once more, and took this many steps by then.
fn refuses_again<M: Calls>(linker: &mut Linker<M>, refusal: Refusal, taken: usize) -> bool {
    linker.step() == Err(refusal) && linker.steps() as usize == taken
}

/// One step of a linker that has taken this many steps: whether nothing is left to do afterwards. None where the step isn't counted, or
/// where a repeated call gives another answer.
fn step<M: Calls>(linker: &mut Linker<M>, taken: usize) -> Result<Option<bool>, Refusal>
    ensures { IfOk result (λ step. IfSome step (λ done. done ≡ true → linker.new.done ≡ true)) }
{
    if linker.steps() as usize != taken {
        return Ok(None);
    }
    match linker.step() {
        Ok(false) => Ok(Some(false)),
        Ok(true) => done_again(linker, taken),
        Err(refusal) => {
            if refuses_again(linker, refusal, taken.saturating_add(1)) {
                Err(refusal)
            } else {
                Ok(None)
            }
        }
    }
}

/// Steps until nothing is left to do, and answers the number of steps. None if there are more than `most` steps.
fn step_all<M: Calls>(linker: &mut Linker<M>, most: usize) -> Result<Option<usize>, Refusal>
    ensures { IfOk result (λ taken. IfSome taken (λ _. linker.new.done ≡ true)) }
{
    for taken in 0..=most {
        match step(linker, taken)? {
            Some(true) => return Ok(Some(taken)),
            Some(false) => {}
            None => return Ok(None),
        }
    }
    Ok(None)
}

/// A linker of a symbol.
pub fn linker_of<M: Calls>(alloc: Global, s: &[u8]) -> Result<Linker<M>, Refusal>
    requires { FitsSymbol s.now }
{
    let shape = sym_shape::read(alloc, &M::grammar(), s)?;
    let bytes = Vec::from_slice(alloc, s)?;
    Linker::<M>::new(alloc, bytes, shape)
}

/// How many rows a symbol's shape has.
fn rows_of<M: Calls>(alloc: Global, s: &[u8]) -> Result<usize, Refusal>
    requires { FitsSymbol s.now }
{
    let shape = sym_shape::read(alloc, &M::grammar(), s)?;
    Ok(shape.rows().len())
}

/// How many steps a reader takes when it is fed byte by byte; none if a step is wrong.
fn reading_steps<M: Calls>(alloc: Global, s: &[u8]) -> Result<Option<usize>, Refusal> {
    let bytes: Vec<&[u8]> = s.chunks(1).collect(alloc)?;
    match fed(alloc, &M::grammar(), &bytes)? {
        Some(reader) => Ok(Some(reader.steps() as usize)),
        None => Ok(None),
    }
}

/// Whether a symbol's counts are these rows and these steps.
fn has_counts<M: Calls>(symbol: &M::Symbol, rows: usize, steps: usize) -> bool {
    let counts = M::counts(symbol);
    counts.rows as usize == rows && counts.steps as usize == steps
}

/// Links a symbol of this many rows step by step, after a reader took this many steps to read it.
/// None if a step is wrong, or if the symbol has other counts.
fn linked_after<M: Calls>(
    alloc: Global,
    s: &[u8],
    read: usize,
    rows: usize,
) -> Result<Option<M::Symbol>, Refusal>
    requires { FitsSymbol s.now }
{
    let mut linker = linker_of::<M>(alloc, s)?;
    let left = most_steps(s.len()).saturating_sub(read);
    let Some(linked) = step_all(&mut linker, left)? else {
        return Ok(None);
    };
    let symbol = linker.finish();
    if has_counts::<M>(&symbol, rows, read.saturating_add(linked)) {
        Ok(Some(symbol))
    } else {
        Ok(None)
    }
}

/// A symbol that is read and linked step by step, with each step counted. None if a step is wrong,
/// or if the symbol has other counts.
pub fn linked_in_steps<M: Calls>(alloc: Global, s: &[u8]) -> Result<Option<M::Symbol>, Refusal>
    requires { FitsSymbol s.now }
{
    let Some(read) = reading_steps::<M>(alloc, s)? else {
        return Ok(None);
    };
    let rows = rows_of::<M>(alloc, s)?;
    linked_after::<M>(alloc, s, read, rows)
}
