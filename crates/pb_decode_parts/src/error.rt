//! Why nothing was put into a part.

ghost use Rattle.std.specs.Prelude.{◌≡◌};
ghost use Rattle.pb_value.specs.declared.error.ValueError.TheVariants as value;

use pb_value::ValueError;
use std::alloc::{AllocError, AllocFailed};

/// An allocation was refused. Putting something into a message fails for that alone, and this takes no space where it goes well.
#[derive(Clone, Copy)]
pub struct NoMemory;

/// What putting something into a message or a part answers.
pub type Put = Result<(), NoMemory>;

impl From<AllocError> for NoMemory {
    fn from(_e: AllocError) -> NoMemory {
        NoMemory
    }
}

impl<T: Drop> From<AllocFailed<T>> for NoMemory {
    fn from(_e: AllocFailed<T>) -> NoMemory {
        NoMemory
    }
}

/// Why a change failed that fails only when out of memory.
pub(crate) fn memory_alone(cause: ValueError) -> NoMemory
    requires { cause ≡ value.Memory }
{
    match cause {
        ValueError::Memory => NoMemory,
        _ => unreachable!(),
    }
}
