//! Reads C++ symbols, one on each line of standard input, and prints for each the count of its shape's rows, or the place of
//! its first bad byte.
#![tactic(auto)]

use cpp_grammar::Abi;
use std::alloc::Global;
use std::io::{self, Read};
use sym_core::{Refusal, fits};
use sym_shape::{Shape, read_into};

/// Prints the result for one symbol.
fn show(rt: &impl Print, shape: &mut Shape, symbol: &[u8]) -> io::Result<()> {
    if !fits(symbol) {
        return println!(rt; "too long");
    }
    match read_into(shape, &Abi, symbol) {
        Ok(()) => println!(rt; "rows {}", shape.rows().len()),
        Err(Refusal::Malformed { at }) => println!(rt; "malformed at {at}"),
        Err(_) => println!(rt; "out of memory"),
    }
}

fn main(rt: HostRuntime) -> io::Result<()> {
    let alloc = rt.alloc();
    let mut input = Vec::new(alloc);
    rt.reader().read_to_end(&mut input)?;
    let mut shape = Shape::new(alloc);
    for symbol in input.split(|byte| *byte == b'\n') {
        show(&rt, &mut shape, symbol)?;
    }
    Ok(())
}
