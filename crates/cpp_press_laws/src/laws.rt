// What holds of pressed spellings, and of the test by which pressing compares trees.
ghost use Rattle.std.specs.Prelude.{◌≡◌, true};
ghost use Rattle.cpp_grammar.specs.Term.{Term};
ghost use Rattle.cpp_press_laws.specs.Apart.{ComponentsAreApart, ComponentsAreMarked};
ghost use Rattle.cpp_press_laws.specs.Few.{ComponentsAreFew};
ghost use Rattle.cpp_press_laws.specs.PressLaws.{PressedIsRead, PressedOnce, PressedTellsApart};
ghost use Rattle.cpp_press_laws.specs.Repeated.{RepeatedComponentsHaveReasons};
ghost use Rattle.cpp_press_laws.specs.Same.{same_tree};
ghost use Rattle.cpp_press_laws.specs.Short.{PressedIsShort};
ghost use Rattle.cpp_press_laws.specs.Subtrees.{EncodingsAreRead, SymbolsFit, TypesAreRead};

/// If some C++ symbol is read as a tree, the pressed spelling of the tree is well shaped, and every
/// shape that spells it is read as the same tree: no qualifier, no discriminator and no suffix is
/// lost. There may be at most 2^64 - 1 pressed bytes, as in any list.
pub fn pressed_is_read()
    ensures { PressedIsRead }
{}

/// If a pressed spelling of at most 2^64 - 1 bytes is read as a tree, this tree is pressed to the same bytes.
pub fn pressed_once()
    ensures { PressedOnce }
{}

/// Each type and each encoding is read as itself where it is pressed, at any place and after any
/// components, if it fits there (`fits_of`): each component in it has an equal component before it, or
/// can be spelled out. The tree that a symbol is read as fits from the symbol's first byte on. The
/// laws of whole symbols follow.
pub fn subtrees_are_read()
    ensures types { TypesAreRead }
    ensures encodings { EncodingsAreRead }
    ensures symbols { SymbolsFit }
{}

/// Two symbols with the same pressed bytes are read as the same tree, if these bytes are at most 2^64 - 1.
pub fn pressed_tells_apart()
    ensures { PressedTellsApart }
{}

/// The test of `same_tree` takes two trees for the same exactly if they are equal: it leaves out no mark, number, name or
/// discriminator.
pub fn trees_are_compared()
    ensures equal { (one other : Term) → same_tree one other ≡ true → one ≡ other }
    ensures itself { (tree : Term) → same_tree tree tree ≡ true }
{}

/// A component that was compared with those before it is equal to none of them; a component with free parameters was compared only with
/// those of its own encoding. Only a template name can be a component that wasn't compared, and only if its arguments end the name of an
/// entity after `Z..E`, or an encoding's own name with qualifiers or a reference mark: no reference may occur there. The spelling that
/// marks which components were compared is the pressed spelling, byte by byte.
pub fn components_are_apart()
    ensures marked { ComponentsAreMarked }
    ensures apart { ComponentsAreApart }
{}

/// If the tree of a component is spelled out already, in whatever encoding, the component has free
/// parameters, or is a template name at a place in the symbol where no reference may occur.
pub fn repeated_components_have_reasons()
    ensures { RepeatedComponentsHaveReasons }
{}

/// At most as many components of a symbol's tree are spelled out as the symbol has candidates: where the symbol has a reference, the
/// spelling has one too, and what the symbol spells out is spelled out at most once.
pub fn components_are_few()
    ensures { ComponentsAreFew }
{}

/// The tree that a fitting symbol is read as has at most 64 pressed bytes for each byte of the symbol.
pub fn pressed_is_short()
    ensures { PressedIsShort }
{}
