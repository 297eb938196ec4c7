// What follows from the definition of short texts.
ghost use Rattle.std.specs.List.{list_all};
ghost use Rattle.std.specs.Prelude.{◌≡◌, ◌++◌, ◌&&◌, ℕ, Bool, true, List, codes};
ghost use Rattle.short_names.specs.Full.{full, full_rules, full_to};
ghost use Rattle.short_names.specs.Laws.{AreAlike, HasNoRow, HasNoStd, IsNoLonger, KeepsFull, KeepsShort};
ghost use Rattle.short_names.specs.Parts.{IsMade, is_simple_list, is_usual, simple_names};
ghost use Rattle.short_names.specs.Short.{short};
ghost use Rattle.short_names.specs.Texts.{text_of};
ghost use Rattle.short_names.specs.Usual.{GoesOn, IsConstructed, IsUsual, IsWhole};
ghost use Rattle.short_names.specs.Walk.{Pairs};
ghost use Rattle.short_names.specs.declared.table.TheConstants.{ALIASES};

/// No short text is longer than the text that it is made from.
pub fn short_texts_are_no_longer()
    ensures { (keeps_inline : Bool) (text : List ℕ) → IsNoLonger keeps_inline text }
{}

/// If short texts keep full texts and full texts keep short ones for two texts whose brackets pair, then the two have
/// equal short texts exactly if their full texts are equal.
pub fn alike_texts_are_alike()
    ensures { (text other : List ℕ) → KeepsFull text → KeepsShort text → KeepsFull other → KeepsShort other
        → Pairs (full_rules (full_to 3)) text → Pairs (full_rules (full_to 3)) other → AreAlike text other }
{}

/// A text in which no name begins with `std::` is both its short text and its full text. So short texts keep full ones there, and full
/// texts keep short ones.
pub fn texts_without_std_stay()
    ensures stays { (text : List ℕ) → HasNoStd text → (short text ≡ text) × (full text ≡ text) }
    ensures laws { (text : List ℕ) → HasNoStd text → KeepsFull text × KeepsShort text }
{}

/// A text in which no name is one of the table, though some may begin with `std::`, is both its short text and its full text. So short
/// texts keep full ones there, and full texts keep short ones.
pub fn texts_without_rows_stay()
    ensures stays { (text : List ℕ) → HasNoRow text → (short text ≡ text) × (full text ≡ text) }
    ensures laws { (text : List ℕ) → HasNoRow text → KeepsFull text × KeepsShort text }
{}

/// Short texts keep full ones and full texts keep short ones in a text that is made of these parts: each list is one of a
/// template of the table, without the allocator of `std::pmr`, or is written as its usual name. Where a list may have a usual
/// name, neither a name nor a list comes after it. So two such texts have equal short texts exactly if their full texts are equal.
pub fn texts_of_lists_keep()
    ensures laws { (text : List ℕ) → IsMade text → KeepsFull text × KeepsShort text }
    ensures alike { (text other : List ℕ) → IsMade text → IsMade other → AreAlike text other }
    ensures templates { list_all (λ name. is_simple_list (codes "std::" ++ name) && is_simple_list (codes "std::__1::" ++ name)) simple_names ≡ true }
    ensures usual_names { list_all (λ row. is_usual (codes "std::" ++ text_of row.name) && is_usual (codes "std::__1::" ++ text_of row.name)) ALIASES ≡ true }
    ensures example { IsMade (codes "f(std::map<int, std::vector<g<long>>>&)") }
    ensures usual { IsMade (codes "std::vector<std::string>") }
    ensures adaptor { IsMade (codes "std::stack<int, std::deque<int, std::allocator<int>>>") }
    ensures full { IsMade (codes "std::vector<std::__cxx11::basic_string<char, std::char_traits<char>, std::allocator<char>>>") }
{}

/// Likewise in a text that has usual names, or the full lists that these abbreviate, outside of its other lists. No list follows such a
/// name or list, and no name follows it except that of a member, a constructor or a destructor. A constructor or destructor has the class's
/// name after a usual name, and the template's name after a list. So two such texts have equal short texts exactly if their full texts are
/// equal.
pub fn texts_of_usual_names_keep()
    ensures laws { (text : List ℕ) → IsWhole text → KeepsFull text × KeepsShort text }
    ensures alike { (text other : List ℕ) → IsWhole text → IsWhole other → AreAlike text other }
    ensures string { IsUsual (codes "std::string") (codes "std::basic_string<char, std::char_traits<char>, std::allocator<char>>") }
    ensures member { (is : IsUsual (codes "std::string") (codes "std::basic_string<char, std::char_traits<char>, std::allocator<char>>"))
        × GoesOn (codes "std::string") (codes "std::basic_string<char, std::char_traits<char>, std::allocator<char>>") (codes "::append") is.alias }
    ensures constructors { (is : IsUsual (codes "std::string") (codes "std::basic_string<char, std::char_traits<char>, std::allocator<char>>"))
        × ((destructor : Bool) → IsConstructed destructor (codes "std::string") (codes "std::basic_string<char, std::char_traits<char>, std::allocator<char>>")
        (codes "string") (codes "basic_string") is.alias) }
    ensures inlined { IsUsual (codes "std::__cxx11::string") (codes "std::__cxx11::basic_string<char, std::char_traits<char>, std::allocator<char>>") }
    ensures stream { IsUsual (codes "std::ostream") (codes "std::basic_ostream<char, std::char_traits<char>>") }
{}

/// Neither law holds of every text whose brackets pair: an operator's name at the end of an element becomes another operator's
/// if the list's `>` comes right after it.
pub fn operators_keep_neither()
    ensures full { KeepsFull (codes "std::ratio<operator, 1l>") → ⊥ }
    ensures short { KeepsShort (codes "std::map<operator, int>") → ⊥ }
{}
