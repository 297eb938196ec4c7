// Which words are symbols, and of which language.
ghost use Rattle.std.specs.Prelude.{◌≡◌, ◌≤◌, Some, length};
ghost use Rattle.sym_filter.specs.Kinds.{kind_by_beginning, kind_of, symbol_of};
ghost use Rattle.sym_filter.specs.declared.kinds.TheConstants.{LONGEST_WORD};

/// The longest word that is read as a symbol, in bytes.
pub const LONGEST_WORD: usize = 65_536;

/// Which bytes words are made of, besides ASCII letters, digits, `_`, `.` and `$`, and where in a run of such bytes a word may begin.
#[derive(Clone, Copy, Debug, PartialEq, Eq)]
pub enum Letters {
    /// All bytes from 0x80, which names of C++ may have. A word is a run.
    Any,
    /// No other bytes, so that a word ends at a quote that isn't ASCII. A word is a run.
    Ascii,
    /// All bytes from 0x80. A word begins within a run, where the name of a symbol may begin, and ends with the run;
    /// the bytes from 0x80 in a word may belong to no symbol.
    Within,
}

/// A mangling.
#[derive(Clone, Copy, Debug, PartialEq, Eq)]
pub enum Lang {
    Cpp,
    Rust,
}

/// The mangling of a word, and how many bytes come before its symbol.
#[derive(Clone, Copy, Debug, PartialEq, Eq)]
pub struct Kind {
    pub lang: Lang,
    pub skip: u32,
}

impl Kind {
    /// The symbol of a word of this kind.
    pub fn symbol_of(self, word: &[u8]) -> &[u8]
        requires { kind_of word.now ≡ Some self }
        ensures symbol { result.now ≡ symbol_of self word.now }
        ensures short { length result.now ≤ LONGEST_WORD }
    {
        &word[self.skip as usize..]
    }
}

/// The kind of a word that names a symbol, by its length and how it begins.
pub fn kind_of(word: &[u8]) -> Option<Kind>
    ensures { result ≡ kind_of word.now }
{
    if word.len() > LONGEST_WORD {
        return None;
    }
    kind_by_beginning(word)
}

/// The kind of a word by how it begins, whatever its length.
pub(crate) fn kind_by_beginning(word: &[u8]) -> Option<Kind>
    ensures { result ≡ kind_by_beginning word.now }
{
    let (lang, skip) = match word {
        [b'_', b'Z', ..] => (Lang::Cpp, 0),
        [b'_', b'R', ..] => (Lang::Rust, 0),
        [b'_', b'_', b'Z', ..] => (Lang::Cpp, 1),
        [b'_', b'_', b'R', ..] => (Lang::Rust, 1),
        _ => return None,
    };
    Some(Kind { lang, skip })
}
