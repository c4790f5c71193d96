//! Why sets are not read or written.

ghost use Rattle.std.specs.Prelude.{◌≡◌};
ghost use Rattle.pb_descr_message.specs.ErrorNumber.{descr_number, write_number};

use crate::cause::DeclCause;
use pb_wire::{Cause, PathStep};
use std::alloc::{AllocError, AllocFailed};
use thiserror::Error;

/// Why a set is not read.
#[derive(Debug, Drop, Error)]
pub enum DescrError {
    /// The bytes are no descriptor set: where they fail, the steps to the open records outermost first, and why.
    #[error("{cause} at byte {byte}")]
    Fault {
        byte: u64,
        path: Vec<PathStep>,
        cause: Cause,
    },
    /// A declaration of the file with this index in the set is not read.
    #[error("{cause} in file {file}")]
    Decl {
        file: usize,
        cause: DeclCause,
    },
    #[error("out of memory")]
    Memory,
}

impl DescrError {
    /// The error's number: 51 for a fault of the bytes, the number of a declaration's cause, and 59 for out of memory.
    pub fn number(&self) -> u8
        ensures { result ≡ descr_number self.now }
    {
        match self {
            DescrError::Fault { .. } => 51,
            DescrError::Decl { cause, .. } => cause.number(),
            DescrError::Memory => 59,
        }
    }
}

impl From<AllocError> for DescrError {
    ghost use Rattle.pb_descr_message.specs.declared.error.DescrError.TheVariants.{Memory};

    ghost from_gives = { λ _ e. e ≡ Memory };

    fn from(_e: AllocError) -> DescrError {
        DescrError::Memory
    }
}

impl<T: Drop> From<AllocFailed<T>> for DescrError {
    ghost use Rattle.pb_descr_message.specs.declared.error.DescrError.TheVariants.{Memory};

    ghost from_gives = { λ _ e. e ≡ Memory };

    fn from(_e: AllocFailed<T>) -> DescrError {
        DescrError::Memory
    }
}

/// Why a set is not written.
#[derive(Clone, Copy, Debug, PartialEq, Eq, Error)]
pub enum WriteSetError {
    /// The set nests more than 100 levels below itself.
    #[error("the set nests more than 100 levels deep")]
    TooDeep,
    /// The set's bytes would be more than 2^31 - 1.
    #[error("the set has more than 2147483647 bytes")]
    TooLarge,
    #[error("out of memory")]
    Memory,
}

impl WriteSetError {
    /// The error's number: 27 for a set that is too deep, 31 for one that is too large and 32 for out of memory.
    pub fn number(self) -> u8
        ensures { result ≡ write_number self }
    {
        match self {
            WriteSetError::TooDeep => 27,
            WriteSetError::TooLarge => 31,
            WriteSetError::Memory => 32,
        }
    }
}

impl From<AllocError> for WriteSetError {
    ghost use Rattle.pb_descr_message.specs.declared.error.WriteSetError.TheVariants.{Memory};

    ghost from_gives = { λ _ e. e ≡ Memory };

    fn from(_e: AllocError) -> WriteSetError {
        WriteSetError::Memory
    }
}

impl<T: Drop> From<AllocFailed<T>> for WriteSetError {
    ghost use Rattle.pb_descr_message.specs.declared.error.WriteSetError.TheVariants.{Memory};

    ghost from_gives = { λ _ e. e ≡ Memory };

    fn from(_e: AllocFailed<T>) -> WriteSetError {
        WriteSetError::Memory
    }
}
