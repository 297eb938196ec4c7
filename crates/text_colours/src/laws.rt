// What holds of coloured texts.
ghost use Rattle.std.specs.Prelude.{◌≡◌, length};
ghost use Rattle.std.specs.List.{All};
ghost use Rattle.sym_parts.specs.Marked.{Marked, stretches_of, text_of};
ghost use Rattle.sym_parts.specs.Spelling.{Spelling, parts_spelled};
ghost use Rattle.text_colours.specs.Colored.{colored};
ghost use Rattle.text_colours.specs.Shown.{IsPrinted, colored_marked, without_sequences};

/// A text whose parts are made by marks is coloured by these marks: each outermost mark with a style puts its text in that style, and the
/// rest of the text stays. The bytes that spell the parts don't matter.
pub fn colors_are_those_of_marks()
    ensures { (s : Spelling) (m : Marked) → colored (text_of m) (parts_spelled s (length (text_of m)) (stretches_of m)) ≡ colored_marked m }
{}

/// Without the sequences for a terminal, a coloured text is the text before colouring.
pub fn colors_change_no_text()
    ensures { (s : Spelling) (m : Marked) → All IsPrinted (text_of m) → without_sequences (colored (text_of m) (parts_spelled s (length (text_of m)) (stretches_of m))) ≡ text_of m }
{}
