// Shared nodes, printed.
#![tactic(auto)]

ghost use Rattle.std.specs.Prelude.{◌≡◌};

use crate::Dag;
use std::test::Fail;
use sym_core::Refusal;
use sym_print::{Item, Printer, print};

fn item(node: u32, ctx: bool) -> Item<bool>
    ensures { result.node ≡ node }
{
    Item {
        node,
        form: 0,
        at: 0,
        ctx,
    }
}

#[test]
fn prints_at_its_exact_cost(rt: HostRuntime) -> Result<(), Fail> {
    let dag = Dag::doubling(rt.alloc(), 2)?;
    let text = print(rt.alloc(), &dag, item(2, false), 14)?;
    assert_eq!(rt; text.as_slice(), b"x,x,x;x".as_slice());
    let refused = print(rt.alloc(), &dag, item(2, false), 13);
    assert!(rt; matches!(refused, Err(Refusal::TooLong)));
    let other_side = print(rt.alloc(), &dag, item(2, true), 14)?;
    assert_eq!(rt; other_side.as_slice(), b"x,x;x;x".as_slice());
    Ok(())
}

#[test]
fn refuses_a_doubled_text_at_once(rt: HostRuntime) -> Result<(), Fail> {
    let dag = Dag::doubling(rt.alloc(), 100)?;
    let refused = print(rt.alloc(), &dag, item(100, false), 1_000);
    assert!(rt; matches!(refused, Err(Refusal::TooLong)));
    Ok(())
}

#[test]
fn begins_again_with_its_memory(rt: HostRuntime) -> Result<(), Fail> {
    let dag = Dag::doubling(rt.alloc(), 2)?;
    let mut printer = Printer::new(rt.alloc(), item(2, false), 13)?;
    assert!(rt; matches!(printer.run(&dag), Err(Refusal::TooLong)));
    assert!(rt; matches!(printer.step(&dag), Err(Refusal::TooLong)));
    printer.reset(item(1, true), 6)?;
    assert!(rt; matches!(printer.step(&dag), Ok(false)));
    printer.run(&dag)?;
    assert_eq!(rt; printer.text(), b"x;x".as_slice());
    assert!(rt; printer.steps() == 6);
    Ok(())
}
