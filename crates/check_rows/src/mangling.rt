// The calls that the crates of both manglings share, each under one name.

ghost use Rattle.sym_core.specs.Number.{FitsSymbol};

use crate::feeding::fed;
use itanium::{Abi, Wide, WideSymbol};
use rust_v0::V0;
use std::alloc::Global;
use sym_core::{Counts, Refusal};
use sym_demangle::Mangling;
use sym_press::{press_cpp, press_rust};
use sym_print::Detail;

/// A mangling with its crate's calls.
pub trait Calls: Mangling {
    fn demangle(alloc: Global, s: &[u8], limit: u32) -> Result<Vec<u8>, Refusal>
        requires { FitsSymbol s.now };

    fn demangle_as(alloc: Global, s: &[u8], limit: u32, detail: Detail) -> Result<Vec<u8>, Refusal>
        requires { FitsSymbol s.now };

    fn read(alloc: Global, s: &[u8]) -> Result<Self::Symbol, Refusal>
        requires { FitsSymbol s.now };

    /// The symbol that a reader was fed in pieces, or none if the reader took a wrong step.
    fn read_fed(alloc: Global, pieces: &[&[u8]]) -> Result<Option<Self::Symbol>, Refusal>;

    fn text(symbol: &Self::Symbol, limit: u32) -> Result<Vec<u8>, Refusal>;

    fn text_as(symbol: &Self::Symbol, limit: u32, detail: Detail) -> Result<Vec<u8>, Refusal>;

    fn counts(symbol: &Self::Symbol) -> Counts;
}

/// A mangling whose symbols are pressed.
pub trait PressCalls: Calls {
    fn press(alloc: Global, symbol: &Self::Symbol) -> Result<Vec<u8>, Refusal>;
}

impl Calls for V0 {
    fn demangle(alloc: Global, s: &[u8], limit: u32) -> Result<Vec<u8>, Refusal> {
        rust_v0::demangle(alloc, s, limit)
    }

    fn demangle_as(
        alloc: Global,
        s: &[u8],
        limit: u32,
        detail: Detail,
    ) -> Result<Vec<u8>, Refusal> {
        rust_v0::demangle_as(alloc, s, limit, detail)
    }

    fn read(alloc: Global, s: &[u8]) -> Result<rust_v0::Symbol, Refusal> {
        rust_v0::read(alloc, s)
    }

    fn read_fed(alloc: Global, pieces: &[&[u8]]) -> Result<Option<rust_v0::Symbol>, Refusal> {
        match fed(alloc, &V0, pieces)? {
            Some(reader) => Ok(Some(rust_v0::read_fed(alloc, reader)?)),
            None => Ok(None),
        }
    }

    fn text(symbol: &rust_v0::Symbol, limit: u32) -> Result<Vec<u8>, Refusal> {
        symbol.text(limit)
    }

    fn text_as(symbol: &rust_v0::Symbol, limit: u32, detail: Detail) -> Result<Vec<u8>, Refusal> {
        symbol.text_as(limit, detail)
    }

    fn counts(symbol: &rust_v0::Symbol) -> Counts {
        symbol.counts()
    }
}

impl PressCalls for V0 {
    fn press(alloc: Global, symbol: &rust_v0::Symbol) -> Result<Vec<u8>, Refusal> {
        press_rust(alloc, symbol)
    }
}

impl Calls for Abi {
    fn demangle(alloc: Global, s: &[u8], limit: u32) -> Result<Vec<u8>, Refusal> {
        itanium::demangle(alloc, s, limit)
    }

    fn demangle_as(
        alloc: Global,
        s: &[u8],
        limit: u32,
        detail: Detail,
    ) -> Result<Vec<u8>, Refusal> {
        itanium::demangle_as(alloc, s, limit, detail)
    }

    fn read(alloc: Global, s: &[u8]) -> Result<itanium::Symbol, Refusal> {
        itanium::read(alloc, s)
    }

    fn read_fed(alloc: Global, pieces: &[&[u8]]) -> Result<Option<itanium::Symbol>, Refusal> {
        match fed(alloc, &Abi, pieces)? {
            Some(reader) => Ok(Some(itanium::read_fed(alloc, reader)?)),
            None => Ok(None),
        }
    }

    fn text(symbol: &itanium::Symbol, limit: u32) -> Result<Vec<u8>, Refusal> {
        symbol.text(limit)
    }

    fn text_as(symbol: &itanium::Symbol, limit: u32, detail: Detail) -> Result<Vec<u8>, Refusal> {
        symbol.text_as(limit, detail)
    }

    fn counts(symbol: &itanium::Symbol) -> Counts {
        symbol.counts()
    }
}

impl PressCalls for Abi {
    fn press(alloc: Global, symbol: &itanium::Symbol) -> Result<Vec<u8>, Refusal> {
        press_cpp(alloc, symbol)
    }
}

impl Calls for Wide {
    fn demangle(alloc: Global, s: &[u8], limit: u32) -> Result<Vec<u8>, Refusal> {
        sym_demangle::demangle::<Wide>(alloc, s, limit)
    }

    fn demangle_as(
        alloc: Global,
        s: &[u8],
        limit: u32,
        detail: Detail,
    ) -> Result<Vec<u8>, Refusal> {
        sym_demangle::demangle_as::<Wide>(alloc, s, limit, detail)
    }

    fn read(alloc: Global, s: &[u8]) -> Result<WideSymbol, Refusal> {
        sym_demangle::read::<Wide>(alloc, s)
    }

    fn read_fed(alloc: Global, pieces: &[&[u8]]) -> Result<Option<WideSymbol>, Refusal> {
        match fed(alloc, &Wide, pieces)? {
            Some(reader) => Ok(Some(sym_demangle::read_fed::<Wide>(alloc, reader)?)),
            None => Ok(None),
        }
    }

    fn text(symbol: &WideSymbol, limit: u32) -> Result<Vec<u8>, Refusal> {
        symbol.text(limit)
    }

    fn text_as(symbol: &WideSymbol, limit: u32, detail: Detail) -> Result<Vec<u8>, Refusal> {
        symbol.text_as(limit, detail)
    }

    fn counts(symbol: &WideSymbol) -> Counts {
        symbol.counts()
    }
}
