// Why a symbol has no text.
#![tactic(auto)]

ghost use Rattle.std.specs.Prelude.{◌≡◌};
ghost use Rattle.sym_core.specs.declared.refusal.Refusal.TheVariants.{Memory};

use std::alloc::{AllocError, AllocFailed};

/// Why a symbol has no text. Places are counts of bytes from the symbol's first one.
#[derive(Clone, Copy, Debug, PartialEq, Eq)]
pub enum Refusal {
    /// 1: no well shaped symbol begins with more than the first `at` bytes. This refusal precedes 2
    /// and 3.
    Malformed { at: u32 },
    /// 2: the symbol is well shaped, and its first bad token is the reference at this place.
    BadReference { at: u32 },
    /// 3: the symbol is well shaped, and its first bad token is the number at this place, which is out of range.
    BadValue { at: u32 },
    /// 4: the symbol was read, and its text costs more than the limit.
    TooLong,
    /// 5: a list couldn't grow. This may be answered before it is known whether 1 to 4 hold.
    Memory,
}

impl From<AllocError> for Refusal {
    ghost from_gives = { λ _ refusal. refusal ≡ Memory };

    fn from(_error: AllocError) -> Refusal {
        Refusal::Memory
    }
}

impl<T: Drop> From<AllocFailed<T>> for Refusal {
    ghost from_gives = { λ _ refusal. refusal ≡ Memory };

    fn from(_error: AllocFailed<T>) -> Refusal {
        Refusal::Memory
    }
}
