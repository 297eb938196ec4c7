// Statuses of the program.
ghost use Rattle.std.specs.Prelude.{◌≡◌};
ghost use Rattle.demangle_names.specs.Names.{status_of};

/// The status of a command line that did what was requested.
pub const DONE: u8 = 0;

/// The status where a name stays although none may.
const LEFT: u8 = 1;

/// The status, by whether a name stays.
pub fn status_of(strict: bool, one_stays: bool) -> u8
    ensures { result ≡ status_of strict one_stays }
{
    if strict && one_stays {
        return LEFT;
    }
    DONE
}
