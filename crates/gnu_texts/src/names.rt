// The names of `std` that GNU's demangler writes otherwise.
ghost use Rattle.std.specs.Prelude.{◌≡◌, ◌≤◌, ◌+◌, ◌==◌, length, drop, Some, IfSome, true};
ghost use Rattle.gnu_texts.specs.Names.{begins_whole, name_of, written_of, end_of, named, name_at, member_front, member_size};

use short_names::is_letter;

/// An abbreviation of the ABI (5.1.10: `Si`, `Sd`, `So`, `Ss`), or the type of `nullptr`.
#[derive(Clone, Copy, Debug, PartialEq, Eq)]
pub(crate) enum Name {
    Istream,
    Iostream,
    Ostream,
    String,
    NullPointer,
}

impl Name {
    /// The name, after `std::`.
    #[tactic(auto, unfolding(crate::specs::Names::name_of))]
    pub(crate) fn text(self) -> &'static [u8]
        ensures { result.now ≡ name_of self }
    {
        match self {
            Name::Istream => b"istream",
            Name::Iostream => b"iostream",
            Name::Ostream => b"ostream",
            Name::String => b"string",
            Name::NullPointer => b"nullptr_t",
        }
    }

    /// What is written for the name.
    #[tactic(auto, unfolding(crate::specs::Names::written_of))]
    pub(crate) fn written(self) -> &'static [u8]
        ensures { result.now ≡ written_of self }
    {
        match self {
            Name::Istream => b"std::basic_istream<char, std::char_traits<char> >",
            Name::Iostream => b"std::basic_iostream<char, std::char_traits<char> >",
            Name::Ostream => b"std::basic_ostream<char, std::char_traits<char> >",
            Name::String =>
                b"std::basic_string<char, std::char_traits<char>, std::allocator<char> >",
            Name::NullPointer => b"decltype(nullptr)",
        }
    }

    /// The last byte of what is written for the name.
    #[tactic(auto, unfolding(crate::specs::Names::end_of))]
    pub(crate) fn end(self) -> u8
        ensures { result ≡ end_of self }
    {
        match self {
            Name::NullPointer => b')',
            Name::Istream | Name::Iostream | Name::Ostream | Name::String => b'>',
        }
    }
}

/// Whether a text begins with a name that isn't the front of a longer one.
#[tactic(auto, unfolding(crate::specs::Names::begins_whole))]
fn begins_whole(text: &[u8], name: &[u8]) -> bool
    ensures whole { result ≡ begins_whole text.now name.now }
    ensures within { result ≡ true → length name.now ≤ length text.now }
{
    if !text.starts_with(name) {
        return false;
    }
    if text.len() == name.len() {
        return true;
    }
    !is_letter(text[name.len()])
}

/// The name at the front of a text that follows `std::`, if GNU's demangler writes this name
/// otherwise.
#[tactic(auto, unfolding(crate::specs::Names::named, crate::specs::Names::name_of))]
fn named(text: &[u8]) -> Option<Name>
    ensures name { result ≡ named text.now }
    ensures within { IfSome result (λ name. length (name_of name) ≤ length text.now) }
{
    if begins_whole(text, b"string") {
        Some(Name::String)
    } else if begins_whole(text, b"ostream") {
        Some(Name::Ostream)
    } else if begins_whole(text, b"istream") {
        Some(Name::Istream)
    } else if begins_whole(text, b"iostream") {
        Some(Name::Iostream)
    } else if begins_whole(text, b"nullptr_t") {
        Some(Name::NullPointer)
    } else {
        None
    }
}

/// The name with which a text begins; none if the byte before the text belongs to a name.
#[tactic(auto, unfolding(crate::specs::Names::name_at))]
pub(crate) fn name_at(last: u8, text: &[u8]) -> Option<Name>
    ensures name { result ≡ name_at last text.now }
    ensures within { IfSome result (λ name. 5 + length (name_of name) ≤ length text.now) }
{
    if text.starts_with(b"std::") && !(is_letter(last) || last == b':') {
        named(&text[5..])
    } else {
        None
    }
}

/// 2 if a text begins with `::` and the name, as before a constructor; 3 if it begins with `::~`
/// and the name, as before a destructor; else 0.
#[tactic(auto, unfolding(crate::specs::Names::member_front))]
pub(crate) fn member_front(name: Name, text: &[u8]) -> usize
    ensures front { result ≡ member_front name text.now }
    ensures within { member_size name result ≤ length text.now }
{
    if text.starts_with(b"::~") && begins_whole(&text[3..], name.text()) {
        3
    } else if text.starts_with(b"::") && begins_whole(&text[2..], name.text()) {
        2
    } else {
        0
    }
}
