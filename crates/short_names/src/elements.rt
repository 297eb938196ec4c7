// The elements of a list of a name of the table.
ghost use Rattle.std.specs.Prelude.{◌≡◌, ◌≤◌, ◌<◌, ◌+◌, ◌-◌, ◌==◌, ◌&&◌, not, nat_eq, ℕ, List, length, take};
ghost use Rattle.std.specs.Cmp.Lexicographic.{pointwise};
ghost use Rattle.short_names.specs.Elements.{AreHoles, element, joined, is_default, left_of, left, is_polymorphic, alias_in, aliases_of};
ghost use Rattle.short_names.specs.Patterns.{filled};
ghost use Rattle.short_names.specs.Starts.{AreElements};

use crate::names::Named;
use crate::patterns::{Holes, is_filled, text_at};
use crate::table::{ALIASES, Alias, DEFAULTS};

/// Elements of a list in a text that ends with the last of them, by where each begins. There is at least one element, and `, ` separates
/// neighbours.
#[derive(Clone, Copy)]
pub(crate) struct Elements<'a> {
    pub text: &'a [u8],
    pub starts: &'a [usize],
}

impl<'a> Elements<'a> {
    /// Where the first `count` elements end.
    pub(crate) fn end(self, count: usize) -> usize
        requires { (elements : List (List ℕ)) × AreElements self.text.now self.starts.now elements }
        ensures { (elements : List (List ℕ)) → (e : AreElements self.entry.text.now self.entry.starts.now elements) →
            result ≡ length e.before + length (joined (take count elements)) }
    {
        if count == 0 {
            self.starts[0]
        } else if count < self.starts.len() {
            self.starts[count] - 2
        } else {
            self.text.len()
        }
    }

    /// The element at a place; empty if there is none.
    fn at(self, place: usize) -> &'a [u8]
        requires { (elements : List (List ℕ)) × AreElements self.text.now self.starts.now elements }
        ensures { (elements : List (List ℕ)) → AreElements self.entry.text.now self.entry.starts.now elements → result.now ≡ element elements place }
    {
        if place >= self.starts.len() {
            return &[];
        }
        &self.text[self.starts[place]..self.end(place + 1)]
    }

    /// The first `count` elements, with what is between them.
    fn front(self, count: usize) -> &'a [u8]
        requires { (elements : List (List ℕ)) × AreElements self.text.now self.starts.now elements }
        ensures { (elements : List (List ℕ)) → AreElements self.entry.text.now self.entry.starts.now elements → result.now ≡ joined (take count elements) }
    {
        &self.text[self.starts[0]..self.end(count)]
    }

    /// What fills the holes of a name's patterns.
    pub(crate) fn holes(self, named: Named) -> Holes<'a>
        requires { (elements : List (List ℕ)) × AreElements self.text.now self.starts.now elements }
        ensures { (elements : List (List ℕ)) → AreElements self.entry.text.now self.entry.starts.now elements → AreHoles named elements result }
    {
        Holes {
            first: self.at(0),
            second: self.at(1),
            whole: text_at(named.whole),
        }
    }

    /// Whether the element at a place is the default that a name of the table has there.
    fn is_default(self, named: Named, holes: Holes<'a>, place: usize) -> bool
        requires { (elements : List (List ℕ)) × (AreElements self.text.now self.starts.now elements) × (AreHoles named elements holes) }
        ensures { (elements : List (List ℕ)) → AreElements self.entry.text.now self.entry.starts.now elements → AreHoles named elements holes.entry →
            result ≡ is_default named elements place }
    {
        if place >= named.template.count as usize {
            return false;
        }
        let row = named.template.first_default as usize + place;
        if row >= DEFAULTS.len() {
            return false;
        }
        is_given(self.at(place), text_at(DEFAULTS[row]), holes)
    }

    /// How many of the first `count` elements are left once the defaults at their end are left out.
    pub(crate) fn without_defaults(self, named: Named, holes: Holes<'a>, count: usize) -> usize
        requires { (elements : List (List ℕ)) × (AreElements self.text.now self.starts.now elements) × (AreHoles named elements holes) }
        ensures { (elements : List (List ℕ)) → AreElements self.entry.text.now self.entry.starts.now elements → AreHoles named elements holes.entry →
            result ≡ left_of named elements count }
    {
        let mut left = count;
        'elements: while left > 0 {
            if !self.is_default(named, holes, left - 1) {
                return left;
            }
            left -= 1;
        }
        left
    }

    /// How many elements are left once the defaults at their end are left out. None is left out if there are more elements
    /// than the name has.
    pub(crate) fn left(self, named: Named, holes: Holes<'a>) -> usize
        requires { (elements : List (List ℕ)) × (AreElements self.text.now self.starts.now elements) × (AreHoles named elements holes) }
        ensures { (elements : List (List ℕ)) → AreElements self.entry.text.now self.entry.starts.now elements → AreHoles named elements holes.entry →
            result ≡ left named elements }
    {
        let all = self.starts.len();
        if all > named.template.count as usize {
            return all;
        }
        self.without_defaults(named, holes, all)
    }

    /// Whether the elements are all that a name has, and the last is the allocator of `std::pmr`.
    pub(crate) fn is_polymorphic(self, named: Named, holes: Holes<'a>) -> bool
        requires { (elements : List (List ℕ)) × (AreElements self.text.now self.starts.now elements) × (AreHoles named elements holes) }
        ensures { (elements : List (List ℕ)) → AreElements self.entry.text.now self.entry.starts.now elements → AreHoles named elements holes.entry →
            result ≡ is_polymorphic named elements }
    {
        let all = self.starts.len();
        if all != named.template.count as usize {
            return false;
        }
        is_given(self.at(all - 1), text_at(named.template.polymorphic), holes)
    }

    /// The usual name of a template with the first elements, if there is one.
    pub(crate) fn alias(self, named: Named, holes: Holes<'a>, count: usize) -> Option<Alias>
        requires { (elements : List (List ℕ)) × (AreElements self.text.now self.starts.now elements) × (AreHoles named elements holes) }
        ensures { (elements : List (List ℕ)) → AreElements self.entry.text.now self.entry.starts.now elements → AreHoles named elements holes.entry →
            result ≡ alias_in (aliases_of named) named elements count }
    {
        let text = self.front(count);
        let mut k = named.template.first_alias as usize;
        let end = (named.template.end_alias as usize).min(ALIASES.len());
        'rows: while k < end {
            let alias = ALIASES[k];
            if is_filled(text, text_at(alias.arguments), holes) {
                return Some(alias);
            }
            k += 1;
        }
        None
    }
}

/// Whether a pattern isn't empty, and a text is the pattern with its holes filled.
fn is_given(text: &[u8], pattern: &[u8], holes: Holes<'_>) -> bool
    ensures { result ≡ not (length pattern.now == 0) && pointwise nat_eq text.now (filled holes.entry.first.now holes.entry.second.now holes.entry.whole.now pattern.now) }
{
    !pattern.is_empty() && is_filled(text, pattern, holes)
}
