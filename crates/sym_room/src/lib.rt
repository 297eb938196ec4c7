//! Lists whose room is bounded by what they hold. For `push` and `reserve`, std says only that the
//! room doesn't shrink; for `reserve_exact` it says what the room becomes. So each list here grows
//! by `reserve_exact`.
#![tactic(auto)]

ghost use Rattle.std.specs.Prelude.{◌≡◌, ◌+◌, ◌≤◌, ◌<◌, ◌∷◌, ◌++◌, [], length, is_ok, OnOk, OnErr, if◌then◌else◌, vec_len, vec_capacity};
ghost use Rattle.sym_room.specs.Room.{IsGrown};

use std::alloc::AllocError;

/// The room that a list gets first.
const LEAST: usize = 8;

/// Makes room for `more` things after those of the list. A list that grows gets room for at least twice the things that it has, so that n
/// things cost O(n) moves.
///
/// # Errors
///
/// `AllocError` where the list had no room for them and got none; the list is then unchanged.
#[inline(always)]
pub fn make_room<T>(list: &mut Vec<T>, more: usize) -> Result<(), AllocError>
    ensures items { list.new.items ≡ list.old.items }
    ensures len { vec_len list.new ≡ vec_len list.old }
    ensures ok { OnOk result (vec_len list.new + more ≤ vec_capacity list.new) }
    ensures grown { IsGrown (vec_capacity list.old) (vec_capacity list.new) (vec_len list.old + more) }
    ensures full { OnErr result (vec_capacity list.old < vec_len list.old + more) }
    ensures err { OnErr result (vec_capacity list.new ≡ vec_capacity list.old) }
{
    let len = list.len();
    if more <= list.capacity() - len {
        return Ok(());
    }
    list.reserve_exact(more.max(len).max(LEAST))
}

/// Puts a thing at the end of the list.
///
/// # Errors
///
/// `AllocError` where the list had no room for it and got none; the list is then unchanged.
#[inline(always)]
pub fn push_within<T: Drop>(list: &mut Vec<T>, value: T) -> Result<(), AllocError>
    ensures items { list.new.items ≡ (if is_ok result then list.old.items ++ value ∷ [] else list.old.items) }
    ensures len { vec_len list.new ≡ (if is_ok result then vec_len list.old + 1 else vec_len list.old) }
    ensures grown { IsGrown (vec_capacity list.old) (vec_capacity list.new) (vec_len list.old + 1) }
    ensures full { OnErr result (vec_capacity list.old < vec_len list.old + 1) }
{
    make_room(list, 1)?;
    list.push_reserved(value);
    Ok(())
}

/// Puts bytes at the end of the list.
///
/// # Errors
///
/// `AllocError` where the list had no room for them and got none; the list is then unchanged.
// std doesn't say that `extend_from_slice` keeps the room as it is where the room suffices. So the
// room is compared afterwards: a test that never fails.
pub fn append_within(list: &mut Vec<u8>, bytes: &[u8]) -> Result<(), AllocError>
    ensures ok { OnOk result (list.new.items ≡ list.old.items ++ bytes.now) }
    ensures grown { OnOk result (IsGrown (vec_capacity list.old) (vec_capacity list.new) (vec_len list.old + length bytes.now)) }
{
    make_room(list, bytes.len())?;
    let room = list.capacity();
    list.extend_from_slice(bytes)?;
    if room < list.capacity() {
        return Err(AllocError);
    }
    Ok(())
}
