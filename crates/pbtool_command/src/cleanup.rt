//! What becomes of a command's memory when the command is done.

ghost use Rattle.std.specs.Prelude.{◌≡◌};
ghost use Rattle.pbtool_command.specs.Cleanup.{freed};

use std::mem::forget;

/// What becomes of the pool and the message of a command when it is done.
#[derive(Clone, Copy, Debug, PartialEq, Eq)]
pub enum Cleanup {
    /// The command frees them, for a program that goes on.
    Free,
    /// They are left to the system, which takes all memory of a program at once when it ends.
    LeaveToSystem,
}

/// Frees a value, or leaves it to the system.
pub(crate) fn clean_up<T: Drop>(value: T, cleanup: Cleanup) {
    drop(to_free(value, cleanup));
}

/// What is to be freed of a value: all of it, or nothing where it is left to the system.
fn to_free<T: Drop>(value: T, cleanup: Cleanup) -> Option<T>
    ensures { result ≡ freed cleanup value }
{
    match cleanup {
        Cleanup::Free => Some(value),
        Cleanup::LeaveToSystem => {
            forget(value);
            None
        }
    }
}
