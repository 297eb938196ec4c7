// What is answered where symbols are pressed.
ghost use Rattle.cpp_grammar.specs.Mangled.{cpp_mangled};
ghost use Rattle.cpp_press_laws.specs.Pressing as cpp_spelling;
ghost use Rattle.cpp_press_laws.specs.Short as cpp_short;
ghost use Rattle.rust_grammar.specs.Mangled.{v0_mangled};
ghost use Rattle.rust_press.specs.Pressing as rust_spelling;
ghost use Rattle.rust_press.specs.Short as rust_short;
ghost use Rattle.sym_languages.specs.Pressed.{AnswersAreShort, ReadingIsPressed};

/// A law of the definitions: what pressing a symbol answers, the pressed spelling of its tree or a refusal, depends only on what the symbol
/// is read as.
pub fn reading_is_pressed()
    ensures cpp { ReadingIsPressed cpp_mangled cpp_spelling.pressed }
    ensures rust { ReadingIsPressed v0_mangled rust_spelling.pressed }
{}

/// Another law of the definitions: the pressed spelling of a symbol that fits has at most 64 bytes for each byte of a C++ symbol, and at
/// most 4 for each byte of a Rust symbol.
pub fn pressed_is_short()
    ensures cpp { AnswersAreShort cpp_mangled cpp_spelling.pressed cpp_short.pressed_a_byte }
    ensures rust { AnswersAreShort v0_mangled rust_spelling.pressed rust_short.pressed_a_byte }
{}
