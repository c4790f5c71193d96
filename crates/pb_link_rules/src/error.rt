//! Why linking gives no pool.

ghost use Rattle.std.specs.Prelude.{◌≡◌};
ghost use Rattle.pb_link_rules.specs.ErrorNumber.{link_number};

use crate::cause::LinkCause;
use std::alloc::{AllocError, AllocFailed};
use thiserror::Error;

/// Why linking gives no pool.
#[derive(Debug, Drop, Error)]
pub enum LinkError {
    /// The first rule that fails, by file, then by declaration, then by the cause's number: the name of the file, the full name of the
    /// declaration, which is empty where the file itself is at fault, and the cause.
    #[error("{cause} at {full_name:?} in {file:?}")]
    Fault {
        file: String,
        full_name: String,
        cause: LinkCause,
    },
    #[error("out of memory")]
    Memory,
}

impl LinkError {
    /// The error's number: that of the cause, and 88 for out of memory.
    pub fn number(&self) -> u8
        ensures { result ≡ link_number self.now }
    {
        match self {
            LinkError::Fault { cause, .. } => cause.number(),
            LinkError::Memory => 88,
        }
    }
}

impl From<AllocError> for LinkError {
    ghost use Rattle.pb_link_rules.specs.declared.error.LinkError.TheVariants.{Memory};

    ghost from_gives = { λ _ e. e ≡ Memory };

    fn from(_e: AllocError) -> LinkError {
        LinkError::Memory
    }
}

impl<T: Drop> From<AllocFailed<T>> for LinkError {
    ghost use Rattle.pb_link_rules.specs.declared.error.LinkError.TheVariants.{Memory};

    ghost from_gives = { λ _ e. e ≡ Memory };

    fn from(_e: AllocFailed<T>) -> LinkError {
        LinkError::Memory
    }
}
