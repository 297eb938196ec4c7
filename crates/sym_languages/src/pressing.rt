// The demanglers that spell symbols of both manglings again instead of printing them.
ghost use Rattle.std.specs.Prelude.{◌≡◌, ◌≤◌, ◌++◌, ℕ, List, Result, Ok, Err, OnOk, OnErr, IfOk, IfErr};
ghost use Rattle.sym_core.specs.declared.refusal.Refusal.{Refusal};
ghost use Rattle.sym_core.specs.declared.refusal.Refusal.TheVariants.{Memory};
ghost use Rattle.sym_core.specs.Number.{FitsSymbol};
ghost use Rattle.sym_core.specs.declared.TheConstants.{MOST_BYTES};
ghost use Rattle.sym_shape.specs.Decided.{AreBytes};
ghost use Rattle.sym_demangle.specs.Mangled.{IsReading};
ghost use Rattle.sym_filter.specs.Demangled.{IsDemangled};
ghost use Rattle.sym_languages.specs.Languages.{AreCounts, AreCountsOf, AreWideCountsOf, wide_readings, with_front, pressed_of};
ghost use Rattle.sym_languages.specs.WidePressed.{most_pressed, wide_pressed_answer, wide_pressed_of};
ghost use Rattle.sym_filter.specs.Kinds.{underscore_of};

use crate::counted::Counted;
use crate::languages::Lists;
use itanium::{Abi, Wide};
use rust_v0::V0;
use std::alloc::{AllocError, Global};
use sym_core::{MOST_BYTES, Refusal};
use sym_demangle::Workspace;
use sym_filter::{Demangled, Demangler, Kind, Lang};
use sym_press::{press_cpp, press_rust};
use wide_press::press_wide;

/// A mangling whose symbols are spelled again, with each repeated part as a reference.
pub trait Pressable: Counted {
    // what is answered for a symbol: its pressed spelling, or the reason why it isn't read
    ghost answer: { List ℕ → Result (List ℕ) Refusal };

    // the pressed spelling of a symbol that was read
    ghost pressed: { Self.Symbol → List ℕ };

    /// The pressed spelling of a symbol.
    ///
    /// # Errors
    ///
    /// Only `Memory`.
    fn press(alloc: Global, symbol: &Self::Symbol) -> Result<Vec<u8>, Refusal>
        ensures pressed { IfOk result (λ out. out.items ≡ pressed symbol.now) }
        ensures memory { IfErr result (λ e. e ≡ Memory) };

    // what a symbol is read as decides its answer
    ghost read: { (s : List ℕ) (symbol : Self.Symbol) → AreBytes s → IsReading Self.Mangling.mangled s (Ok (Self.Mangling.whole_of symbol)) → answer s ≡ Ok (pressed symbol) };

    ghost refused: { (s : List ℕ) (refusal : Refusal) → AreBytes s → IsReading Self.Mangling.mangled s (Err refusal) → answer s ≡ Err refusal };
}

impl Pressable for Abi {
    ghost use Rattle.cpp_grammar.specs.Mangled.{cpp_mangled};
    ghost use Rattle.cpp_layout.specs.Layout.{whole_of};
    ghost use Rattle.cpp_press_laws.specs.Pressing as cpp;
    ghost use Rattle.sym_languages.specs.Pressed.{pressed_answer, reading_pressed};

    ghost answer = { pressed_answer cpp_mangled cpp.pressed };

    ghost pressed = { λ symbol. cpp.pressed (whole_of symbol) };

    fn press(alloc: Global, symbol: &itanium::Symbol) -> Result<Vec<u8>, Refusal> {
        press_cpp(alloc, symbol)
    }

    ghost read = { λ s symbol bytes is. reading_pressed cpp_mangled cpp.pressed s (Ok (whole_of symbol)) bytes is };

    ghost refused = { λ s refusal bytes is. reading_pressed cpp_mangled cpp.pressed s (Err refusal) bytes is };
}

impl Pressable for V0 {
    ghost use Rattle.rust_grammar.specs.Mangled.{v0_mangled};
    ghost use Rattle.rust_v0.specs.Whole.{whole_of};
    ghost use Rattle.rust_press.specs.Pressing as rust;
    ghost use Rattle.sym_languages.specs.Pressed.{pressed_answer, reading_pressed};

    ghost answer = { pressed_answer v0_mangled rust.pressed };

    ghost pressed = { λ symbol. rust.pressed (whole_of symbol) };

    fn press(alloc: Global, symbol: &rust_v0::Symbol) -> Result<Vec<u8>, Refusal> {
        press_rust(alloc, symbol)
    }

    ghost read = { λ s symbol bytes is. reading_pressed v0_mangled rust.pressed s (Ok (whole_of symbol)) bytes is };

    ghost refused = { λ s refusal bytes is. reading_pressed v0_mangled rust.pressed s (Err refusal) bytes is };
}

/// Both manglings, with the pressed spelling of a symbol as its text: each repeated part is a reference. There is no limit, so no symbol is too long.
#[derive(Clone, Copy, Drop)]
pub struct Pressing;

impl Demangler for Pressing {
    type Lists = Lists<Abi>;

    ghost answer = { λ pressing kind symbol. pressed_of kind symbol };

    ghost are_counts = { λ pressing lang symbol counts. AreCountsOf lang symbol counts };

    fn lists(&self, alloc: Global) -> Result<Lists<Abi>, AllocError> {
        Ok(Lists::new(alloc))
    }

    fn read_ahead(&self, lists: &mut Lists<Abi>, lang: Lang, front: &[u8]) {
        lists.read_ahead(lang, front);
    }

    fn demangle(
        &self,
        lists: &mut Lists<Abi>,
        kind: Kind,
        symbol: &[u8],
        out: &mut Vec<u8>,
    ) -> Demangled {
        match kind.lang {
            Lang::Cpp => press_into(&mut lists.cpp, kind.skip, symbol, out),
            Lang::Rust => press_into(&mut lists.rust, kind.skip, symbol, out),
        }
    }

    fn append(
        &self,
        lists: &mut Lists<Abi>,
        kind: Kind,
        symbol: &[u8],
        out: &mut Vec<u8>,
    ) -> Result<(), Refusal> {
        match self.demangle(lists, kind, symbol, out) {
            Demangled::Text(_) => Ok(()),
            Demangled::TooLong(_) => Err(Refusal::TooLong),
            Demangled::Refused(refusal) => Err(refusal),
        }
    }
}

/// Appends the pressed spelling of a symbol of a mangling, if the symbol is read, after the underscore that was dropped.
fn press_into<M: Pressable>(
    workspace: &mut Workspace<M>,
    skip: u32,
    symbol: &[u8],
    out: &mut Vec<u8>,
) -> Demangled
    requires { FitsSymbol symbol.now }
    ensures { IsDemangled (with_front (underscore_of skip) (M.answer symbol.now))
        (AreCounts (record { mangled = M.mangled; IsRead = M.is_read; bytes_of = M.bytes_of; whole_of = M.whole_of; are_nodes = M.are_nodes; nodes_a_byte = M.nodes_a_byte }) symbol.now)
        out.old.items out.new.items result }
{
    let read = match workspace.read(symbol) {
        Ok(read) => read,
        Err(refusal) => return Demangled::Refused(refusal),
    };
    let counts = M::counts(&read);
    let pressed = M::press(*out.allocator(), &read);
    workspace.recycle(read);
    let Ok(pressed) = pressed else {
        return Demangled::Refused(Refusal::Memory);
    };
    match push_after_underscore(skip, &pressed, out) {
        Ok(()) => Demangled::Text(counts),
        Err(_) => Demangled::Refused(Refusal::Memory),
    }
}

/// Both manglings, with the pressed spelling of a symbol as its text, and with C++ by the wide grammar. A C++ symbol has a spelling only if
/// the wide grammar reads the spelling as the symbol's tree; otherwise the symbol, which was read, is answered as if it were too long.
#[derive(Clone, Copy, Drop)]
pub struct WidePressing;

impl Demangler for WidePressing {
    type Lists = Lists<Wide>;

    ghost answer = { λ pressing kind symbol. wide_pressed_of kind symbol };

    ghost are_counts = { λ pressing lang symbol counts. AreWideCountsOf lang symbol counts };

    fn lists(&self, alloc: Global) -> Result<Lists<Wide>, AllocError> {
        Ok(Lists::new(alloc))
    }

    fn read_ahead(&self, lists: &mut Lists<Wide>, lang: Lang, front: &[u8]) {
        lists.read_ahead(lang, front);
    }

    fn demangle(
        &self,
        lists: &mut Lists<Wide>,
        kind: Kind,
        symbol: &[u8],
        out: &mut Vec<u8>,
    ) -> Demangled {
        match kind.lang {
            Lang::Cpp => press_wide_into(&mut lists.cpp, kind.skip, symbol, out),
            Lang::Rust => press_into(&mut lists.rust, kind.skip, symbol, out),
        }
    }

    fn append(
        &self,
        lists: &mut Lists<Wide>,
        kind: Kind,
        symbol: &[u8],
        out: &mut Vec<u8>,
    ) -> Result<(), Refusal> {
        match self.demangle(lists, kind, symbol, out) {
            Demangled::Text(_) => Ok(()),
            Demangled::TooLong(_) => Err(Refusal::TooLong),
            Demangled::Refused(refusal) => Err(refusal),
        }
    }
}

/// Appends the pressed spelling of a symbol of the wide grammar, if the spelling is kept, after the underscore that was dropped.
fn press_wide_into(
    workspace: &mut Workspace<Wide>,
    skip: u32,
    symbol: &[u8],
    out: &mut Vec<u8>,
) -> Demangled
    requires { FitsSymbol symbol.now }
    ensures { IsDemangled (with_front (underscore_of skip) (wide_pressed_answer symbol.now)) (AreCounts wide_readings symbol.now) out.old.items out.new.items result }
{
    let read = match workspace.read(symbol) {
        Ok(read) => read,
        Err(refusal) => return Demangled::Refused(refusal),
    };
    let counts = Wide::counts(&read);
    let pressed = press_wide(
        *out.allocator(),
        workspace,
        &read,
        most_pressed(symbol.len()),
    );
    workspace.recycle(read);
    match pressed {
        Err(_) => Demangled::Refused(Refusal::Memory),
        Ok(None) => Demangled::TooLong(counts),
        Ok(Some(pressed)) => match push_after_underscore(skip, &pressed, out) {
            Ok(()) => Demangled::Text(counts),
            Err(_) => Demangled::Refused(Refusal::Memory),
        },
    }
}

/// The most bytes of a spelling that is answered for a symbol of this length: 64 for each byte, and at most as many as a symbol may have.
fn most_pressed(len: usize) -> usize
    requires { len ≤ MOST_BYTES }
    ensures { result ≡ most_pressed len }
{
    (64 * len).min(MOST_BYTES)
}

/// Appends bytes after the underscore that was dropped, or nothing.
fn push_after_underscore(skip: u32, bytes: &[u8], out: &mut Vec<u8>) -> Result<(), AllocError>
    ensures pushed { OnOk result (out.new.items ≡ out.old.items ++ (underscore_of skip ++ bytes.now)) }
    ensures same { OnErr result (out.new.items ≡ out.old.items) }
{
    let len = out.len();
    if skip > 0 {
        out.push(b'_')?;
    }
    if out.extend_from_slice(bytes).is_err() {
        out.truncate(len);
        return Err(AllocError);
    }
    Ok(())
}
