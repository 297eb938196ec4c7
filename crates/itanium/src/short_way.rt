// The short way: a symbol's text, written while its bytes are read.

ghost use Rattle.std.specs.Prelude.{◌≡◌, ◌≤◌, ◌+◌, ◌*◌, length, true, false, Ok};
ghost use Rattle.sym_core.specs.Number.{FitsSymbol};
ghost use Rattle.sym_demangle.specs.Mangled.{IsAnswer};
ghost use Rattle.cpp_direct.specs.WriterInvariant.{IsShown, IsWhole};
ghost use Rattle.cpp_direct.specs.Symbol.{mangled_by, symbol_as, symbol_by};
ghost use Rattle.cpp_direct.specs.MidStep.{IsFresh};

use crate::writer::Writer;
use cpp_direct::{Grammar, Shown, Step, are_name_bytes};
use sym_print::Detail;

/// The longest symbol that is written this way, in bytes. The lists take at most some 95 bytes for each byte of the symbol, so a thread
/// keeps 6 MB. Words of the filter are no longer than this.
const LONGEST: usize = 65_536;

/// The most bytes of text that are written for each byte of a symbol, and the bytes that may be written in addition. The text of an
/// instance is up to twenty times as long as a symbol with many substitutions, and the instance's name is written twice.
const BYTES_A_BYTE: usize = 32;

const BYTES_ANYWAY: usize = 1_024;

/// The most steps that are taken for each byte of a symbol. Each step reads a byte, or ends what was read. Where a step loops over the
/// components of a nested name, each turn of the loop reads a byte of its own.
const ROUNDS_A_BYTE: usize = 8;

/// Writes the text of a symbol in the requested detail, by the wide grammar or the default one, if the short way reads the symbol and the
/// text costs at most a limit. Answers whether the text was written. If it wasn't, nothing is known of the symbol.
///
/// Whatever is answered, at most 32 bytes for each of the symbol's bytes and a kilobyte are written, and at most eight steps for each byte
/// are taken. No list has room for more entries than the symbol has bytes. Text and candidates only grow until a function ends. At its end
/// three things are removed: what was written of an instance of a function template up to its return type; the return type of a function
/// whose address is an argument, or that contains a type; and what was written after the name of a function that is shown only by its name.
/// Arguments that aren't shown are written, too, and are left out at the end.
// This is inlined at each call, which knows the detail and mostly the grammar, so the inlined code has no steps for other details and
// grammars.
#[inline(always)]
pub fn write(writer: &mut Writer, s: &[u8], limit: u32, is_wide: bool, detail: Detail) -> bool
    requires { FitsSymbol s.now }
    ensures answer { result ≡ true → IsAnswer (mangled_by is_wide) detail s.now limit (Ok writer.new.lists.text.list.items) }
    ensures bytes { length writer.new.lists.text.list.items ≤ 32 * length s.now + 1024 }
    ensures candidates { length writer.new.lists.candidates.list.items ≤ length s.now }
    ensures waiting { length writer.new.lists.waiting.list.items ≤ length s.now }
    ensures rounds { writer.new.rounds ≤ writer.old.rounds + 8 * length s.now }
{
    let bytes = BYTES_A_BYTE * s.len() + BYTES_ANYWAY;
    let most = bytes.min(limit as usize / 4) as u32;
    writer.restart(s, most);
    if run_by(writer, s, most, is_wide, detail) {
        writer.forget();
        return true;
    }
    writer.restart(s, 0);
    writer.forget();
    false
}

/// Writes the text of a symbol that is shown only in part, in the same way as `write`.
#[inline(never)]
pub fn write_less(writer: &mut Writer, s: &[u8], limit: u32, is_wide: bool, detail: Detail) -> bool
    requires { FitsSymbol s.now }
    ensures answer { result ≡ true → IsAnswer (mangled_by is_wide) detail s.now limit (Ok writer.new.lists.text.list.items) }
    ensures bytes { length writer.new.lists.text.list.items ≤ 32 * length s.now + 1024 }
    ensures candidates { length writer.new.lists.candidates.list.items ≤ length s.now }
    ensures waiting { length writer.new.lists.waiting.list.items ≤ length s.now }
    ensures rounds { writer.new.rounds ≤ writer.old.rounds + 8 * length s.now }
{
    write(writer, s, limit, is_wide, detail)
}

/// Takes steps up to the end of a symbol.
#[inline(always)]
fn run_by(writer: &mut Writer, s: &[u8], most: u32, is_wide: bool, detail: Detail) -> bool
    requires fits { FitsSymbol s.now }
    requires fresh { IsFresh writer.old.lists }
    ensures shown { result ≡ true → IsShown (symbol_as is_wide detail s.now) most writer.new.lists.text.list.items }
    ensures within { result ≡ true → length writer.new.lists.text.list.items ≤ most }
    ensures rounds { writer.new.rounds ≤ writer.old.rounds + 8 * length s.now }
{
    if is_wide {
        return run_as::<true>(writer, s, most, detail);
    }
    run_as::<false>(writer, s, most, detail)
}

/// Takes steps up to the end of a symbol, by the wide grammar or by that of the ABI.
#[inline(always)]
fn run_as<const WIDE: bool>(writer: &mut Writer, s: &[u8], most: u32, detail: Detail) -> bool
    requires fits { FitsSymbol s.now }
    requires fresh { IsFresh writer.old.lists }
    ensures shown { result ≡ true → IsShown (symbol_as WIDE detail s.now) most writer.new.lists.text.list.items }
    ensures within { result ≡ true → length writer.new.lists.text.list.items ≤ most }
    ensures rounds { writer.new.rounds ≤ writer.old.rounds + 8 * length s.now }
{
    match detail {
        Detail::Full => run::<Shown<WIDE, false, false>>(writer, s, most),
        Detail::NoParameters => run::<Shown<WIDE, true, false>>(writer, s, most),
        Detail::Brief => run::<Shown<WIDE, false, true>>(writer, s, most),
        Detail::BriefNoParameters => run::<Shown<WIDE, true, true>>(writer, s, most),
    }
}

/// Takes steps up to the end of a symbol by a grammar. At most this many bytes are written.
fn run<G: Grammar>(writer: &mut Writer, s: &[u8], most: u32) -> bool
    requires fits { FitsSymbol s.now }
    requires fresh { IsFresh writer.old.lists }
    ensures shown { result ≡ true → IsShown (symbol_by G.IS_WIDE G.IS_BARE G.IS_BRIEF s.now) most writer.new.lists.text.list.items }
    ensures within { result ≡ true → length writer.new.lists.text.list.items ≤ most }
    ensures rounds { writer.new.rounds ≤ writer.old.rounds + 8 * length s.now }
{
    if s.len() > LONGEST || !are_name_bytes(s) {
        return false;
    }
    let Some(first) = writer.begin::<G>(s) else {
        return false;
    };
    let mut step = first;
    'steps: for _ in 0..ROUNDS_A_BYTE * s.len() {
        if let Step::Ended = step {
            return end::<G>(writer, s, most);
        }
        match writer.take::<G>(s, step) {
            Some(next) => step = next,
            None => return false,
        }
    }
    false
}

/// Removes what isn't shown from what was written of a symbol, if at most this many bytes were written.
#[inline(always)]
fn end<G: Grammar>(writer: &mut Writer, s: &[u8], most: u32) -> bool
    requires { IsWhole (symbol_by G.IS_WIDE G.IS_BARE G.IS_BRIEF s.now) writer.old.lists.text.list.items }
    ensures shown { result ≡ true → IsShown (symbol_by G.IS_WIDE G.IS_BARE G.IS_BRIEF s.now) most writer.new.lists.text.list.items }
    ensures within { result ≡ true → length writer.new.lists.text.list.items ≤ most }
    ensures rounds { writer.new.rounds ≡ writer.old.rounds }
{
    if writer.text().len() > most as usize {
        return false;
    }
    match writer.show::<G>(s) {
        Some(()) => true,
        None => false,
    }
}
