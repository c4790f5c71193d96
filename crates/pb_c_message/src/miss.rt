//! Why nothing is found.

ghost use Rattle.std.specs.Prelude.{◌≡◌};

use std::alloc::{AllocError, AllocFailed};

/// Why nothing is found.
#[derive(Debug, PartialEq, Eq, Drop)]
pub enum Miss {
    /// The message has nothing there, or nothing of the kind that is asked for.
    Absent,
    /// The steps are no place.
    BadPlace,
    Memory,
}

impl From<AllocError> for Miss {
    ghost use Rattle.pb_c_message.specs.declared.miss.Miss.TheVariants.{Memory};

    ghost from_gives = { λ _ e. e ≡ Memory };

    fn from(_: AllocError) -> Miss {
        Miss::Memory
    }
}

impl<T: Drop> From<AllocFailed<T>> for Miss {
    ghost use Rattle.pb_c_message.specs.declared.miss.Miss.TheVariants.{Memory};

    ghost from_gives = { λ _ e. e ≡ Memory };

    fn from(_: AllocFailed<T>) -> Miss {
        Miss::Memory
    }
}
