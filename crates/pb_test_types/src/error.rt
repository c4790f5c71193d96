//! Why words mean nothing.

ghost use Rattle.std.specs.Prelude.{◌≡◌};
ghost use Rattle.pb_test_types.specs.declared.error.WordError.TheVariants.{Memory, NoMeaning};

use std::alloc::{AllocError, AllocFailed};
use std::num::ParseIntError;
use thiserror::Error;

/// Why words mean nothing.
#[derive(Clone, Copy, Debug, PartialEq, Eq, Error)]
pub enum WordError {
    #[error("the words mean nothing")]
    NoMeaning,
    #[error("out of memory")]
    Memory,
}

impl From<AllocError> for WordError {
    ghost from_gives = { λ _ e. e ≡ Memory };

    fn from(_e: AllocError) -> WordError {
        WordError::Memory
    }
}

impl<T: Drop> From<AllocFailed<T>> for WordError {
    ghost from_gives = { λ _ e. e ≡ Memory };

    fn from(_e: AllocFailed<T>) -> WordError {
        WordError::Memory
    }
}

impl From<ParseIntError> for WordError {
    ghost from_gives = { λ _ e. e ≡ NoMeaning };

    fn from(_e: ParseIntError) -> WordError {
        WordError::NoMeaning
    }
}
