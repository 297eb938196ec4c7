// The demangler over both manglings, in which a style may leave symbols out.
ghost use Rattle.std.specs.Prelude.{◌≡◌, IfOk};
ghost use Rattle.sym_core.specs.Number.{FitsSymbol};
ghost use Rattle.demangle_command.specs.Styled.{details_found, styled_answer, styled_details};
ghost use Rattle.text_details.specs.Details.{details_in};
ghost use Rattle.sym_languages.specs.Languages.{AreWideCountsOf};

use demangle_names::Style;
use std::alloc::{AllocError, Global};
use sym_core::Refusal;
use sym_filter::{Demangled, Demangler, Kind, Lang};
use sym_languages::languages::Lists;
use sym_languages::{Languages, Legacy, Wide};
use sym_recent::Alike;
use symbol_parts::{Parsed, Parser};
use text_details::{Detailed, Details};

/// The answer to a symbol that a style leaves out: the style takes the symbol as malformed at its first byte.
const LEFT_OUT: Refusal = Refusal::Malformed { at: 0 };

/// Both manglings, with C++ by the wide grammar and legacy Rust names as paths. A style may leave symbols out.
#[derive(Clone, Copy, Drop)]
pub struct Styled {
    pub style: Style,
    pub languages: Languages<Wide>,
}

impl Demangler for Styled {
    type Lists = Lists<Wide>;

    ghost answer = { λ styled kind symbol. styled_answer styled.style styled.languages.limit styled.languages.detail kind symbol };

    ghost are_counts = { λ styled lang symbol counts. AreWideCountsOf lang symbol counts };

    fn lists(&self, alloc: Global) -> Result<Lists<Wide>, AllocError> {
        self.languages.lists(alloc)
    }

    fn read_ahead(&self, lists: &mut Lists<Wide>, lang: Lang, front: &[u8]) {
        self.languages.read_ahead(lists, lang, front);
    }

    fn demangle(
        &self,
        lists: &mut Lists<Wide>,
        kind: Kind,
        symbol: &[u8],
        out: &mut Vec<u8>,
    ) -> Demangled {
        if self.style.leaves_out(kind.lang, symbol) {
            return Demangled::Refused(LEFT_OUT);
        }
        let languages = self.languages;
        if self.style.reads_paths() {
            return Legacy { languages }.demangle(lists, kind, symbol, out);
        }
        languages.demangle(lists, kind, symbol, out)
    }

    #[inline(always)]
    fn append(
        &self,
        lists: &mut Lists<Wide>,
        kind: Kind,
        symbol: &[u8],
        out: &mut Vec<u8>,
    ) -> Result<(), Refusal> {
        if self.style.leaves_out(kind.lang, symbol) {
            return Err(LEFT_OUT);
        }
        let languages = self.languages;
        if self.style.reads_paths() {
            return Legacy { languages }.append(lists, kind, symbol, out);
        }
        languages.append(lists, kind, symbol, out)
    }
}

impl Detailed for Styled {
    ghost details = { λ styled. styled_details styled.style styled.languages.limit styled.languages.detail };

    fn find_details(
        &self,
        alloc: Global,
        kind: Kind,
        symbol: &[u8],
    ) -> Result<Option<Details>, AllocError> {
        if self.style.leaves_out(kind.lang, symbol) {
            return Ok(None);
        }
        let languages = self.languages;
        if self.style.reads_paths() {
            return details_by(&Legacy { languages }, alloc, kind, symbol);
        }
        details_by(&languages, alloc, kind, symbol)
    }
}

/// The details of the text of a word's symbol, if the symbol has a text.
fn details_by<P: Parser>(
    parser: &P,
    alloc: Global,
    kind: Kind,
    symbol: &[u8],
) -> Result<Option<Details>, AllocError>
    requires { FitsSymbol symbol.now }
    ensures { IfOk result (λ found. details_in found ≡ details_found (P.parsed parser.now kind symbol.now)) }
{
    match parser.parse(alloc, kind, symbol) {
        Ok(parsed) => {
            let Parsed {
                text: _,
                kind,
                parts,
            } = parsed;
            Ok(Some(Details { kind, parts }))
        }
        Err(refusal) => match refusal {
            Refusal::Memory => Err(AllocError),
            _ => Ok(None),
        },
    }
}

impl Alike for Styled {
    fn is_alike(&self, other: &Styled) -> bool {
        self.style == other.style
            && self.languages.limit == other.languages.limit
            && self.languages.detail == other.languages.detail
    }
}
