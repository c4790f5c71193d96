//! Why parts make no pool.

ghost use Rattle.std.specs.Prelude.{◌≡◌};
ghost use Rattle.pb_schema.specs.ErrorNumber.{number_of};
ghost use Rattle.pb_schema.specs.declared.error.PoolError.TheVariants.{Memory};

use std::alloc::{AllocError, AllocFailed};
use thiserror::Error;

/// Why parts make no pool.
#[derive(Clone, Copy, Debug, PartialEq, Eq, Error)]
pub enum PoolError {
    /// A rule does not hold.
    #[error("the parts meet not all rules of a pool")]
    BadParts,
    #[error("out of memory")]
    Memory,
}

impl PoolError {
    /// The error's number: 34 for parts that break a rule and 35 for out of memory.
    pub fn number(self) -> u8
        ensures { result ≡ number_of self }
    {
        match self {
            PoolError::BadParts => 34,
            PoolError::Memory => 35,
        }
    }
}

impl From<AllocError> for PoolError {
    ghost from_gives = { λ _ e. e ≡ Memory };

    fn from(_e: AllocError) -> PoolError {
        PoolError::Memory
    }
}

impl<T: Drop> From<AllocFailed<T>> for PoolError {
    ghost from_gives = { λ _ e. e ≡ Memory };

    fn from(_e: AllocFailed<T>) -> PoolError {
        PoolError::Memory
    }
}
