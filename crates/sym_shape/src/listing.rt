// The rules of a grammar as code lists them: a row of letters for each kind, and the symbols of all rules in one list.
ghost use Rattle.std.specs.Prelude.{◌≡◌, ◌≤◌, ◌+◌, ◌*◌, [], length, take, drop, MatchOption};
ghost use Rattle.sym_shape.specs.Listing.{letter_below, listed_in, StandsAt};

use crate::rule::Sym;

/// The byte at which a row of letters begins.
const FIRST: u8 = b'$';

/// The byte at which a row of letters ends.
const LAST: u8 = b'z';

/// The letter in a row where no rule is taken.
const BLANK: u8 = b' ';

/// The end of a rule in a list, after its symbols. So no rule of a list has a byte 0 as a symbol.
pub const END: Sym = Sym::Byte(0);

/// The symbols of rules in one list, after those of the start kind. Each rule has six places: its
/// symbols, and `END` in the places that are left.
#[macro_export]
macro_rules! symbols_listed {
    ($([$first:expr, $second:expr, $third:expr, $fourth:expr, $fifth:expr],)*) => {
        [
            $crate::Sym::Kind(0), $crate::END, $crate::END, $crate::END, $crate::END, $crate::END,
            $($first, $second, $third, $fourth, $fifth, $crate::END,)*
        ]
    };
}

/// The letter that a row has for a byte. Rows extend from `$` to `z`; no rule is taken at another
/// byte.
#[inline(always)]
pub fn letter_in(row: &[u8; 87], byte: u8) -> Option<u8>
    ensures { result ≡ letter_below row.now byte }
{
    if byte < FIRST || byte > LAST {
        return None;
    }
    let letter = row[(byte - FIRST) as usize];
    if letter == BLANK {
        return None;
    }
    Some(letter)
}

/// The place of the first symbol of the rule with a number, in a list with six places for each
/// rule.
#[inline(always)]
pub fn place_of(number: usize) -> usize
    requires { number ≤ 65535 }
    ensures { result ≡ number * 6 + 6 }
{
    number * 6 + 6
}

/// The five symbols of a list from a place on.
#[inline(always)]
pub fn symbols_from(symbols: &[Sym], place: usize) -> [Sym; 5]
    requires { place + 5 ≤ length symbols.now }
    ensures { result ≡ take 5 (drop place symbols.now) }
{
    [
        symbols[place],
        symbols[place + 1],
        symbols[place + 2],
        symbols[place + 3],
        symbols[place + 4],
    ]
}

/// The symbol at a place of a list, or none where a rule's symbols end.
#[inline(always)]
pub fn symbol_at(symbols: &[Sym], place: u32) -> Option<Sym>
    requires { length symbols.now ≤ 65535 }
    ensures { MatchOption result (listed_in symbols.now place ≡ []) (StandsAt (listed_in symbols.now) place) }
{
    let place = place as usize;
    if place >= symbols.len() {
        return None;
    }
    match symbols[place] {
        Sym::Byte(byte) => {
            if byte == 0 {
                None
            } else {
                Some(Sym::Byte(byte))
            }
        }
        Sym::Kind(kind) => Some(Sym::Kind(kind)),
        Sym::Name => Some(Sym::Name),
        Sym::Number(kind) => Some(Sym::Number(kind)),
    }
}
