// The demangler over both manglings.
ghost use Rattle.std.specs.Prelude.{◌≡◌};
ghost use Rattle.sym_core.specs.Number.{FitsSymbol};
ghost use Rattle.sym_print.specs.Details.{has_arguments};
ghost use Rattle.sym_demangle.specs.Mangled.{answer};
ghost use Rattle.sym_filter.specs.Demangled.{IsAppended, IsDemangled};
ghost use Rattle.sym_languages.specs.Languages.{AreCounts, AreCountsBy, language_answer_by};

use crate::counted::Counted;
use itanium::{Abi, Wide};
use rust_v0::V0;
use std::alloc::{AllocError, Global};
use sym_core::Refusal;
use sym_demangle::{Mangling, Workspace};
use sym_filter::{Demangled, Demangler, Kind, Lang};
use sym_print::Detail;

/// A grammar of C++ symbols.
pub trait Cpp: Counted {}

impl Cpp for Abi {}

impl Cpp for Wide {}

/// Both manglings, at a limit on the cost of a text and a detail, with the grammar for reading C++ symbols: `Abi` or `Wide`.
#[derive(Clone, Copy, Drop)]
pub struct Languages<C: Cpp> {
    pub limit: u32,
    pub detail: Detail,
    pub cpp: C,
}

/// The lists of both languages.
#[derive(Drop)]
pub struct Lists<C: Cpp> {
    pub cpp: Workspace<C>,
    pub rust: Workspace<V0>,
}

impl<C: Cpp> Lists<C> {
    pub fn new(alloc: Global) -> Lists<C> {
        Lists {
            cpp: Workspace::new(alloc),
            rust: Workspace::new(alloc),
        }
    }

    /// Reads what has arrived of a symbol that may continue.
    pub fn read_ahead(&mut self, lang: Lang, front: &[u8])
        requires { FitsSymbol front.now }
    {
        match lang {
            Lang::Cpp => self.cpp.read_ahead(front),
            Lang::Rust => self.rust.read_ahead(front),
        }
    }
}

impl<C: Cpp> Demangler for Languages<C> {
    type Lists = Lists<C>;

    ghost answer = { λ languages kind symbol. language_answer_by C.mangled languages.limit languages.detail kind.lang symbol };

    ghost are_counts = { λ languages lang symbol counts. AreCountsBy (record { mangled = C.mangled; IsRead = C.is_read; bytes_of = C.bytes_of; whole_of = C.whole_of; are_nodes = C.are_nodes; nodes_a_byte = C.nodes_a_byte }) lang symbol counts };

    fn lists(&self, alloc: Global) -> Result<Lists<C>, AllocError> {
        Ok(Lists::new(alloc))
    }

    fn read_ahead(&self, lists: &mut Lists<C>, lang: Lang, front: &[u8]) {
        lists.read_ahead(lang, front);
    }

    fn demangle(
        &self,
        lists: &mut Lists<C>,
        kind: Kind,
        symbol: &[u8],
        out: &mut Vec<u8>,
    ) -> Demangled {
        match kind.lang {
            Lang::Cpp => demangle_in(&mut lists.cpp, symbol, self.limit, self.detail, out),
            Lang::Rust => demangle_in(&mut lists.rust, symbol, self.limit, self.detail, out),
        }
    }

    fn append(
        &self,
        lists: &mut Lists<C>,
        kind: Kind,
        symbol: &[u8],
        out: &mut Vec<u8>,
    ) -> Result<(), Refusal> {
        match kind.lang {
            Lang::Cpp => append_in(&mut lists.cpp, symbol, self.limit, self.detail, out),
            Lang::Rust => {
                let detail = with_parameters(self.detail);
                append_in(&mut lists.rust, symbol, self.limit, detail, out)
            }
        }
    }
}

/// A detail that shows parameters, and otherwise as much as this one. A Rust symbol has no parameters, so its text is the same in both.
pub fn with_parameters(detail: Detail) -> Detail
    ensures { has_arguments result ≡ has_arguments detail }
{
    if detail.has_arguments() {
        Detail::Full
    } else {
        Detail::Brief
    }
}

/// Appends the text of a symbol of a mangling, if the symbol has one.
fn append_in<M: Mangling>(
    workspace: &mut Workspace<M>,
    symbol: &[u8],
    limit: u32,
    detail: Detail,
    out: &mut Vec<u8>,
) -> Result<(), Refusal>
    requires { FitsSymbol symbol.now }
    ensures { IsAppended (answer M.mangled detail symbol.now limit) out.old.items out.new.items result }
{
    workspace.demangle_into(symbol, limit, detail, out)
}

/// Appends the text of a symbol of a mangling, if the symbol has one.
fn demangle_in<M: Counted>(
    workspace: &mut Workspace<M>,
    symbol: &[u8],
    limit: u32,
    detail: Detail,
    out: &mut Vec<u8>,
) -> Demangled
    requires { FitsSymbol symbol.now }
    ensures { IsDemangled (answer M.mangled detail symbol.now limit)
        (AreCounts (record { mangled = M.mangled; IsRead = M.is_read; bytes_of = M.bytes_of; whole_of = M.whole_of; are_nodes = M.are_nodes; nodes_a_byte = M.nodes_a_byte }) symbol.now)
        out.old.items out.new.items result }
{
    let read = match workspace.read(symbol) {
        Ok(read) => read,
        Err(refusal) => return Demangled::Refused(refusal),
    };
    let counts = M::counts(&read);
    let printed = workspace.print(&read, limit, detail, out);
    workspace.recycle(read);
    match printed {
        Ok(()) => Demangled::Text(counts),
        Err(refusal) => match refusal {
            Refusal::TooLong => Demangled::TooLong(counts),
            // each other refusal of printing is a lack of memory
            _ => Demangled::Refused(Refusal::Memory),
        },
    }
}
