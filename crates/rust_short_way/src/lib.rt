//! The text of a Rust symbol, written while its bytes are read: the steps of `rust_direct`, and the bounds within which they are taken.
#![tactic(auto)]

ghost use Rattle.std.specs.Prelude.{◌≡◌, ◌≤◌, ◌+◌, ◌*◌, ◌/◌, length, true, Ok};
ghost use Rattle.sym_core.specs.Number.{FitsSymbol};
ghost use Rattle.sym_print.specs.declared.detail.Detail.TheVariants as details;
ghost use Rattle.rust_grammar.specs.Mangled.{IsAnswer};
ghost use Rattle.rust_direct.specs.declared.open.Step.TheVariants as steps;
ghost use Rattle.rust_direct.specs.Prints.{detail_by};
ghost use Rattle.rust_direct.specs.WriterInvariant.{IsWriting, IsShown, HasRooms};
ghost use Rattle.rust_direct.specs.Awaits.{IsFresh};

mod writer;

use rust_direct::{Brief, Showing, Step, Whole};
pub use writer::Writer;

/// The most bytes of text that are written for each byte of a symbol, and how many in addition.
const BYTES_A_BYTE: usize = 8;

const BYTES_ANYWAY: usize = 1_024;

/// The most steps that are taken for each byte of a symbol: each reads a byte, or ends what was read. Where a step loops, as
/// over letters or over the names of enclosing paths, each turn of the loop reads a byte of its own.
const ROUNDS_A_BYTE: usize = 8;

/// Writes the text of a symbol in full, if the short way reads the symbol and the text costs at most a limit, and answers
/// whether it did. Where it didn't, nothing is known of the symbol, and the lists are empty.
///
/// In any case the text has at most eight bytes for each byte of the symbol and a kilobyte in
/// addition, and so has the hidden text. At most eight steps for each byte are taken. No list has
/// more entries than the symbol has bytes: each step begins with lists that have room for no more.
/// The lists only grow in a call.
pub fn write(writer: &mut Writer, s: &[u8], limit: u32) -> bool
    requires { FitsSymbol s.now }
    ensures answer { result ≡ true → IsAnswer details.Full s.now limit (Ok writer.new.lists.text.list.items) }
    ensures bytes { length writer.new.lists.text.list.items ≤ 8 * length s.now + 1024 }
    ensures aside { length writer.new.lists.aside.list.items ≤ 8 * length s.now + 1024 }
    ensures notes { length writer.new.lists.notes.list.items ≤ length s.now }
    ensures numbers { length writer.new.lists.numbers.items ≤ length s.now }
    ensures waiting { length writer.new.lists.waiting.list.items ≤ length s.now }
    ensures rounds { writer.new.rounds ≤ writer.old.rounds + 8 * length s.now }
{
    write_as::<Whole>(writer, s, limit)
}

/// Writes the text of a symbol without its generic arguments, as `write` does. The arguments are
/// written, too, and left out at the end.
pub fn write_brief(writer: &mut Writer, s: &[u8], limit: u32) -> bool
    requires { FitsSymbol s.now }
    ensures answer { result ≡ true → IsAnswer details.Brief s.now limit (Ok writer.new.lists.text.list.items) }
    ensures bytes { length writer.new.lists.text.list.items ≤ 8 * length s.now + 1024 }
    ensures aside { length writer.new.lists.aside.list.items ≤ 8 * length s.now + 1024 }
    ensures notes { length writer.new.lists.notes.list.items ≤ length s.now }
    ensures numbers { length writer.new.lists.numbers.items ≤ length s.now }
    ensures waiting { length writer.new.lists.waiting.list.items ≤ length s.now }
    ensures rounds { writer.new.rounds ≤ writer.old.rounds + 8 * length s.now }
{
    write_as::<Brief>(writer, s, limit)
}

/// Writes the text of a symbol without its generic arguments or with them.
#[inline(always)]
fn write_as<S: Showing>(writer: &mut Writer, s: &[u8], limit: u32) -> bool
    requires { FitsSymbol s.now }
    ensures answer { result ≡ true → IsAnswer (detail_by S.IS_BRIEF) s.now limit (Ok writer.new.lists.text.list.items) }
    ensures rooms { HasRooms s.now writer.new.lists }
    ensures rounds { writer.new.rounds ≤ writer.old.rounds + 8 * length s.now }
{
    let size = s.len();
    let bytes = BYTES_A_BYTE * size + BYTES_ANYWAY;
    let shown = bytes.min(limit as usize / 4);
    writer.restart(shown as u32, bytes as u32, size as u32);
    if run::<S>(writer, s, limit) {
        return true;
    }
    writer.restart(0, 0, 0);
    false
}

/// Takes steps up to the end of a symbol.
fn run<S: Showing>(writer: &mut Writer, s: &[u8], limit: u32) -> bool
    requires fits { FitsSymbol s.now }
    requires fresh { IsFresh s.now writer.old.lists }
    ensures answer { result ≡ true → IsAnswer (detail_by S.IS_BRIEF) s.now limit (Ok writer.new.lists.text.list.items) }
    ensures rooms { result ≡ true → HasRooms s.now writer.new.lists }
    ensures rounds { writer.new.rounds ≤ writer.old.rounds + 8 * length s.now }
{
    let Some(first) = writer.begin::<S>(s) else {
        return false;
    };
    let mut step = first;
    'steps: for _ in 0..ROUNDS_A_BYTE * s.len() {
        if let Step::Ended = step {
            return end::<S>(writer, s, limit);
        }
        match writer.take::<S>(s, step) {
            Some(next) => step = next,
            None => return false,
        }
    }
    false
}

/// Removes from the written text what isn't to be shown, if the limit is enough for all of that
/// text.
#[inline(always)]
fn end<S: Showing>(writer: &mut Writer, s: &[u8], limit: u32) -> bool
    requires { IsWriting S.IS_BRIEF s.now writer.old.lists steps.Ended }
    ensures shown { result ≡ true → IsShown S.IS_BRIEF s.now (length writer.old.lists.text.list.items) writer.new.lists.text.list.items }
    ensures within { result ≡ true → length writer.old.lists.text.list.items ≤ limit / 4 }
    ensures rooms { result ≡ true → HasRooms s.now writer.new.lists }
    ensures rounds { writer.new.rounds ≡ writer.old.rounds }
{
    if writer.text().len() > limit as usize / 4 {
        return false;
    }
    match writer.show::<S>(s) {
        Some(()) => true,
        None => false,
    }
}
