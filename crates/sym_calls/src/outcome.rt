// What a call reports to its caller: a status with its numbers, and the bytes in the caller's buffer.
ghost use Rattle.std.specs.Prelude.{◌≡◌};
ghost use Rattle.sym_calls.specs.Calls.{ending_of, refused, unspelled, written};

use sym_core::Refusal;

/// The outcome of a name or of a text: its status, with how many bytes were written or are needed, and how many bytes precede
/// the first bad byte, reference or number; 0 where there is none of these.
#[repr(C)]
#[derive(Clone, Copy)]
pub struct Outcome {
    pub length: usize,
    pub offset: u32,
    pub status: u32,
}

/// A text or a spelling is in the buffer, or counts are reported.
pub const OK: u32 = 0;
/// No symbol has these bytes. The offset is that of the first byte that no symbol has at its place.
pub const MALFORMED: u32 = 1;
/// A reference names nothing. The offset is that of the reference.
pub const BAD_REFERENCE: u32 = 2;
/// A number is out of range. The offset is that of the number.
pub const BAD_VALUE: u32 = 3;
/// The text costs more than the limit.
pub const TOO_LONG: u32 = 4;
/// An allocation was refused.
pub const MEMORY: u32 = 5;
/// The buffer is too small.
pub const BUFFER: u32 = 6;
/// The symbol has too many bytes.
pub const SIZE: u32 = 7;
/// There is no such flag, or this call can't do what the flag requests.
pub const FLAGS: u32 = 8;
/// The ends of names decrease, pass their text, or are fewer or more than the outcomes. (Status 9 is only the header's: a pointer is null.)
pub const ENDS: u32 = 10;
/// The name doesn't begin like a symbol.
pub const NO_SYMBOL: u32 = 11;
/// The symbol is read by the wide grammar, and its pressed spelling isn't read as the same tree.
pub const NO_SPELLING: u32 = 12;

/// A status alone.
pub(crate) fn alone(status: u32) -> Outcome
    ensures { result ≡ record { length = 0; offset = 0; status = status } }
{
    Outcome {
        length: 0,
        offset: 0,
        status,
    }
}

/// The outcome of a call that has no memory for its lists.
pub(crate) fn no_memory() -> Outcome
    ensures { result ≡ record { length = 0; offset = 0; status = 5 } }
{
    alone(MEMORY)
}

/// A status with an offset.
fn at(status: u32, offset: u32) -> Outcome
    ensures { result ≡ record { length = 0; offset = offset; status = status } }
{
    Outcome {
        length: 0,
        offset,
        status,
    }
}

/// The refusal of a symbol that begins after n bytes: its number, and its offset if it has one.
#[tactic(auto, unfolding(crate::specs::Calls::refused))]
pub(crate) fn of_refusal(refusal: Refusal, skip: u32, buffer: &[u8]) -> Outcome
    ensures { ending_of result buffer.now ≡ refused refusal skip buffer.now }
{
    match refusal {
        Refusal::Malformed { at: offset } => at(MALFORMED, offset.saturating_add(skip)),
        Refusal::BadReference { at: offset } => at(BAD_REFERENCE, offset.saturating_add(skip)),
        Refusal::BadValue { at: offset } => at(BAD_VALUE, offset.saturating_add(skip)),
        Refusal::TooLong => alone(TOO_LONG),
        Refusal::Memory => alone(MEMORY),
    }
}

/// The outcome of a call for a pressed spelling, where the refusal `TooLong` means that the symbol has no spelling.
#[tactic(auto, unfolding(crate::specs::Calls::unspelled))]
pub(crate) fn unspelled(outcome: Outcome, buffer: &[u8]) -> Outcome
    ensures { ending_of result buffer.now ≡ unspelled (ending_of outcome buffer.now) }
{
    if outcome.status == TOO_LONG {
        return alone(NO_SPELLING);
    }
    outcome
}

/// Writes bytes to the front of the buffer, or says how large the buffer has to be.
#[tactic(auto, unfolding(crate::specs::Calls::written))]
pub(crate) fn write(bytes: &[u8], buffer: &mut [u8]) -> Outcome
    ensures { ending_of result buffer.new ≡ written bytes.now buffer.old }
{
    let length = bytes.len();
    if length > buffer.len() {
        return Outcome {
            length,
            offset: 0,
            status: BUFFER,
        };
    }
    buffer[..length].copy_from_slice(bytes);
    Outcome {
        length,
        offset: 0,
        status: OK,
    }
}
