//! Gives the symbols of rows to every call that takes a symbol, and names the rows for which a call gives another answer. A row has a
//! symbol and the answer that it has to get. `docs/TESTING.md` says how rows are written.
#![tactic(auto)]

mod answer;
mod calls;
mod changes;
mod commands;
mod example;
mod feeding;
mod languages;
mod library;
mod linking;
mod mangling;
mod named;
mod parsing;
mod printing;
mod row;
mod rows;
mod scripted;
mod streams;
mod trees;
mod ways;

use languages::AllLists;
use rows::verdict_of;
use std::io::{self, Read};
use std::process::ExitCode;

/// The status where each row holds.
const HELD: u8 = 0;

/// The status where a row doesn't hold, or where there is no row.
const FAILED: u8 = 1;

/// The status where memory ran out, or reading or writing failed.
const FAULT: u8 = 3;

/// What was found out about the rows: whether there were any, whether one of them doesn't hold, and whether memory ran out for one of them.
#[derive(Clone, Copy)]
struct Outcome {
    some: bool,
    failed: bool,
    lacked: bool,
}

/// Names the rows that don't hold, by their lines.
fn check_each<R: Print + AllocGlobal>(
    rt: &R,
    lists: &mut AllLists,
    rows: &[u8],
) -> io::Result<Outcome> {
    let mut outcome = Outcome {
        some: false,
        failed: false,
        lacked: false,
    };
    for (line, row) in rows.split(|byte| *byte == b'\n').enumerate() {
        if row.is_empty() || row.starts_with(b"#") {
            continue;
        }
        outcome.some = true;
        let verdict = verdict_of(rt.alloc(), lists, row);
        if verdict.lacked {
            outcome.lacked = true;
            println!(rt; "row {}: out of memory", line.saturating_add(1))?;
        } else if verdict.failed {
            outcome.failed = true;
            println!(rt; "row {} doesn't hold", line.saturating_add(1))?;
        }
    }
    Ok(outcome)
}

/// Holds the lists of both grammars. Without this trait, the proof of a function that takes the
/// lists would be about everything in these lists.
trait Held {
    fn lists(&mut self) -> &mut AllLists;
}

impl Held for AllLists {
    fn lists(&mut self) -> &mut AllLists {
        self
    }
}

/// Names the rows that don't hold, by their lines, with lists that are dropped afterwards.
fn check_over<R: Print + AllocGlobal, H: Held + Drop>(
    rt: &R,
    mut held: H,
    rows: &[u8],
) -> io::Result<Outcome> {
    check_each(rt, held.lists(), rows)
}

/// Names the rows that don't hold, by their lines, with new lists.
fn check_all<R: Print + AllocGlobal>(rt: &R, rows: &[u8]) -> io::Result<Outcome> {
    check_over(rt, AllLists::new(rt.alloc()), rows)
}

/// Names the rows that don't hold, by their lines, and says whether all do.
fn check<R: Input + Print + AllocGlobal>(rt: &R) -> io::Result<u8> {
    let mut input = Vec::new(rt.alloc());
    rt.reader().read_to_end(&mut input)?;
    let outcome = check_all(rt, &input)?;
    let mut status = FAILED;
    if outcome.some && !outcome.failed {
        status = HELD;
        println!(rt; "each row holds")?;
    }
    if outcome.lacked {
        status = FAULT;
    }
    Ok(status)
}

fn main(rt: HostRuntime) -> ExitCode {
    match check(&rt) {
        Ok(status) => ExitCode::from(status),
        Err(_) => ExitCode::from(FAULT),
    }
}
