//! Why a path is not read.

ghost use Rattle.std.specs.Prelude.{◌≡◌};

use std::alloc::{AllocError, AllocFailed};

/// Why a path is not read. Bytes of the path count from 0.
#[derive(Debug, PartialEq, Eq, Drop)]
pub enum Unread {
    /// No name of a field begins at this byte.
    NoField(usize),
    /// At this byte the path does not go on as it has to.
    NoPath(usize),
    Memory,
}

impl From<AllocError> for Unread {
    ghost use Rattle.pb_c_paths.specs.declared.unread.Unread.TheVariants.{Memory};

    ghost from_gives = { λ _ e. e ≡ Memory };

    fn from(_: AllocError) -> Unread {
        Unread::Memory
    }
}

impl<T: Drop> From<AllocFailed<T>> for Unread {
    ghost use Rattle.pb_c_paths.specs.declared.unread.Unread.TheVariants.{Memory};

    ghost from_gives = { λ _ e. e ≡ Memory };

    fn from(_: AllocFailed<T>) -> Unread {
        Unread::Memory
    }
}
