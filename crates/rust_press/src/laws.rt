// What holds of pressed spellings, whatever spelling the symbol was read from.
ghost use Rattle.rust_press.specs.PressLaws.{PressedIsRead, PressedOnce};
ghost use Rattle.rust_press.specs.Apart.{ComponentsAreApart};
ghost use Rattle.rust_press.specs.Short.{PressedIsShort};
ghost use Rattle.rust_press.specs.Subtrees.{ConstantsAreRead, PathsAreRead, TypesAreRead};

/// If some Rust symbol denotes a tree, the pressed spelling of the tree is well shaped, and every
/// shape that spells it denotes the same tree: no part, no disambiguator and no suffix is lost.
/// There may be at most 2^64 - 1 pressed bytes, as in any list.
pub fn pressed_is_read()
    ensures { PressedIsRead }
{}

/// If a pressed spelling of at most 2^64 - 1 bytes is read as a tree, this tree is pressed to the same bytes.
pub fn pressed_once()
    ensures { PressedOnce }
{}

/// Each path, type or constant that a symbol may have is read as itself where it is pressed, after
/// any spelled beginning: the components of the beginning have ended by then. The laws of whole
/// symbols follow from this law.
pub fn subtrees_are_read()
    ensures paths { PathsAreRead }
    ensures types { TypesAreRead }
    ensures constants { ConstantsAreRead }
{}

/// No two paths, types or constants that pressing spells out are the same.
pub fn components_are_apart()
    ensures { ComponentsAreApart }
{}

/// If a fitting symbol is read as a tree, the tree has at most four pressed bytes for each byte of the symbol.
pub fn pressed_is_short()
    ensures { PressedIsShort }
{}
