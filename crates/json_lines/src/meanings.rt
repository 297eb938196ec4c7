// What a name is.
ghost use Rattle.std.specs.Prelude.{◌≡◌, IfOk};
ghost use Rattle.json_lines.specs.Meanings.{meaning_in, meaning_of, stays, symbol_meaning};

use std::alloc::{AllocError, Global};
use sym_core::Refusal;
use sym_filter::kind_of;
use text_details::{Detailed, Details, Mangling, mangling_of};
use type_names::type_for;

/// What a name is.
#[derive(Drop)]
pub enum Meaning {
    /// A symbol or a type, its text, and the details of the text, where they are known.
    Text {
        text: Vec<u8>,
        mangling: Mangling,
        details: Option<Details>,
    },
    /// A symbol that has no text, and why.
    Refused(Refusal),
    /// No symbol.
    NoSymbol,
}

impl Meaning {
    /// Whether the name has no text.
    pub fn stays(&self) -> bool
        ensures { result ≡ stays (meaning_in self.now) }
    {
        match self {
            Meaning::Text { .. } => false,
            Meaning::Refused(_) => true,
            Meaning::NoSymbol => true,
        }
    }
}

/// What a name is: a type, if types are read and the name is one, and otherwise what it is as a symbol.
pub(crate) fn meaning_of<D: Detailed>(
    alloc: Global,
    demangler: &D,
    types: bool,
    reads_paths: bool,
    name: &[u8],
) -> Result<Meaning, AllocError>
    ensures { IfOk result (λ meaning. meaning_in meaning ≡ meaning_of types reads_paths (D.answer demangler.now) (D.details demangler.now) name.now) }
{
    match type_for(alloc, demangler, types, name)? {
        Some(text) => Ok(Meaning::Text {
            text,
            mangling: Mangling::Itanium,
            details: None,
        }),
        None => symbol_meaning(alloc, demangler, reads_paths, name),
    }
}

/// What a name is as a symbol.
pub(crate) fn symbol_meaning<D: Detailed>(
    alloc: Global,
    demangler: &D,
    reads_paths: bool,
    name: &[u8],
) -> Result<Meaning, AllocError>
    ensures { IfOk result (λ meaning. meaning_in meaning ≡ symbol_meaning reads_paths (D.answer demangler.now) (D.details demangler.now) name.now) }
{
    let Some(kind) = kind_of(name) else {
        return Ok(Meaning::NoSymbol);
    };
    let symbol = kind.symbol_of(name);
    let mut lists = demangler.lists(alloc)?;
    let mut text = Vec::new(alloc);
    match demangler.append(&mut lists, kind, symbol, &mut text) {
        Ok(()) => {
            let mangling = mangling_of(reads_paths, kind.lang, symbol);
            let details = demangler.find_details(alloc, kind, symbol)?;
            Ok(Meaning::Text {
                text,
                mangling,
                details,
            })
        }
        Err(refusal) => match refusal {
            Refusal::Memory => Err(AllocError),
            _ => Ok(Meaning::Refused(refusal)),
        },
    }
}
