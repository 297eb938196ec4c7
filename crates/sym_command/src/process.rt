// The words with which a program is called, and what it says at its end.
ghost use Rattle.std.specs.Prelude.{◌≡◌, ◌^◌, ◌-◌, ◌<◌, IfOk, IsSome, vec_len};
ghost use Rattle.sym_command.specs.declared.process.TheConstants.{LONGEST_ARGUMENT};

use crate::command::FAULT;
use std::alloc::{AllocError, Global};
use std::rt::Env;
use std::{env, io, str};
use sym_filter::{FilterFault, Sink, write_all};

/// The greatest length of an argument, in bytes (Linux's bound on one argument).
const LONGEST_ARGUMENT: usize = 131_072;

/// The words with which a process was called, or none if one of them isn't valid UTF-8. In that case a message under the program's name
/// says so, and the caller has to end with the status `WRONG_USE`.
///
/// # Errors
///
/// `Write` and `Memory`.
pub fn called_with<R: Env + AllocGlobal, E: Sink>(
    rt: &R,
    name: &str,
    err: &mut E,
) -> Result<Option<Vec<String>>, FilterFault>
    requires { E.failure_count err.old < 2 ^ 64 - 1 }
    ensures { IfOk result (λ words. IsSome words → E.failure_count err.new ≡ E.failure_count err.old) }
{
    let args = match env::args(rt) {
        Ok(args) => args,
        Err(error) => {
            if error.kind() == io::ErrorKind::OutOfMemory {
                return Err(FilterFault::Memory);
            }
            refuse_argument(rt, name, err)?;
            return Ok(None);
        }
    };
    let words = args.collect(rt.alloc())?;
    Ok(Some(words))
}

/// Names the first argument that isn't valid UTF-8.
fn refuse_argument<R: Env + AllocGlobal, E: Sink>(
    rt: &R,
    name: &str,
    err: &mut E,
) -> Result<(), FilterFault>
    requires { E.failure_count err.old < 2 ^ 64 - 1 }
{
    let alloc = rt.alloc();
    let mut room = room_for_argument(alloc)?;
    let mut line = Vec::from_slice(alloc, name.as_bytes())?;
    line.extend_from_slice(b": ")?;
    for i in 0..usize::MAX {
        let Ok(len) = rt.arg(i, &mut room) else {
            break;
        };
        let word = room.get(..len).unwrap_or_default();
        if str::from_utf8(word).is_err() {
            line.extend_from_slice(word)?;
            break;
        }
    }
    line.extend_from_slice(b": not valid UTF-8\n")?;
    write_all(err, &line)
}

/// Room for the bytes of one argument.
fn room_for_argument(alloc: Global) -> Result<Vec<u8>, AllocError>
    ensures { IfOk result (λ room. vec_len room ≡ LONGEST_ARGUMENT) }
{
    vec![in alloc; 0u8; LONGEST_ARGUMENT]
}

/// Names a fault on standard error under the program's name, and answers the status.
pub fn fault<E: Print>(errors: &E, name: &str, error: FilterFault) -> u8
    ensures { result ≡ 3 }
{
    let _ = errors.println(format_args!("{name}: {error}"));
    FAULT
}
