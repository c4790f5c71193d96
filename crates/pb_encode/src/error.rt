//! Why messages are not encoded.

ghost use Rattle.std.specs.Prelude.{◌≡◌};
ghost use Rattle.pb_encode.specs.ErrorNumber.{number_of};
ghost use Rattle.pb_encode.specs.declared.error.EncodeError.TheVariants.{Memory};

use std::alloc::{AllocError, AllocFailed};
use thiserror::Error;

/// Why a message is not encoded.
#[derive(Clone, Copy, Debug, PartialEq, Eq, Error)]
pub enum EncodeError {
    /// The canonical form has more than 2^31 - 1 bytes.
    #[error("the encoding has more than 2147483647 bytes")]
    TooLarge,
    #[error("out of memory")]
    Memory,
    /// The device failed after it took the first `written` bytes.
    #[error("the device failed after {written} bytes")]
    Device { written: u64 },
}

impl EncodeError {
    /// The error's number: 31 for a message that is too large, 32 for out of memory and 33 for a device that failed.
    pub fn number(self) -> u8
        ensures { result ≡ number_of self }
    {
        match self {
            EncodeError::TooLarge => 31,
            EncodeError::Memory => 32,
            EncodeError::Device { written: _ } => 33,
        }
    }
}

impl From<AllocError> for EncodeError {
    ghost from_gives = { λ _ e. e ≡ Memory };

    fn from(_e: AllocError) -> EncodeError {
        EncodeError::Memory
    }
}

impl<T: Drop> From<AllocFailed<T>> for EncodeError {
    ghost from_gives = { λ _ e. e ≡ Memory };

    fn from(_e: AllocFailed<T>) -> EncodeError {
        EncodeError::Memory
    }
}
