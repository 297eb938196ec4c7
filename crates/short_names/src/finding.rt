// Names that become shorter.
ghost use Rattle.std.specs.Prelude.{◌≡◌};
ghost use Rattle.short_names.specs.Plain.{IsFound};
ghost use Rattle.short_names.specs.Changes.{is_nothing};

use crate::names::{Change, change_at};
use crate::runs::{run_at, std_run};

/// A name that becomes shorter or may do so: where it is in a text, the size of its run, and what becomes shorter there.
#[derive(Clone, Copy)]
pub(crate) struct Found {
    pub at: usize,
    pub size: usize,
    pub change: Change,
}

/// Whether nothing becomes shorter.
fn is_nothing(change: Change) -> bool
    ensures { result ≡ is_nothing change }
{
    match change {
        Change::Nothing => true,
        Change::List { .. } => false,
        Change::Member { .. } => false,
    }
}

/// The first name of a text that becomes shorter or may do so; none where no name does.
pub(crate) fn first_change(text: &[u8]) -> Option<Found>
    ensures { IsFound text.now result }
{
    let mut at = 0;
    'names: while let Some(name) = std_run(text, at) {
        let rest = &text[name..];
        let run = run_at(rest);
        let change = change_at(rest, run);
        if !is_nothing(change) {
            return Some(Found {
                at: name,
                size: run.len(),
                change,
            });
        }
        at = name + 1;
    }
    None
}
