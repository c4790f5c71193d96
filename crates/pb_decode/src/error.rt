//! Why bytes are refused.

ghost use Rattle.std.specs.Prelude.{◌≡◌};
ghost use Rattle.pb_decode.specs.ErrorNumber.{number_of};
ghost use Rattle.pb_decode.specs.declared.error.DecodeError.TheVariants.{Memory};

use pb_decode_parts::NoMemory;
use pb_wire::{Cause, PathStep};
use std::alloc::{AllocError, AllocFailed};
use thiserror::Error;

/// Why no message was decoded.
#[derive(Debug, Drop, Error)]
pub enum DecodeError {
    /// The bytes are no message of the type: where they fail, the steps to the open records outermost first, and why.
    #[error("{cause} at byte {byte}")]
    Fault {
        byte: u64,
        path: Vec<PathStep>,
        cause: Cause,
    },
    #[error("out of memory")]
    Memory,
    #[error("the input failed")]
    Device,
    /// The decoder refused bytes before, or gave its message.
    #[error("the decoder is finished")]
    Finished,
}

impl DecodeError {
    /// The error's number: 40 for a fault, 41 for out of memory, 42 for an input that failed, 43 for a finished decoder.
    pub fn number(&self) -> u8
        ensures { result ≡ number_of self.now }
    {
        match self {
            DecodeError::Fault { .. } => 40,
            DecodeError::Memory => 41,
            DecodeError::Device => 42,
            DecodeError::Finished => 43,
        }
    }
}

impl From<AllocError> for DecodeError {
    ghost from_gives = { λ _ e. e ≡ Memory };

    fn from(_e: AllocError) -> DecodeError {
        DecodeError::Memory
    }
}

impl<T: Drop> From<AllocFailed<T>> for DecodeError {
    ghost from_gives = { λ _ e. e ≡ Memory };

    fn from(_e: AllocFailed<T>) -> DecodeError {
        DecodeError::Memory
    }
}

impl From<NoMemory> for DecodeError {
    ghost from_gives = { λ _ e. e ≡ Memory };

    fn from(_e: NoMemory) -> DecodeError {
        DecodeError::Memory
    }
}
