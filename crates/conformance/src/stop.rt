//! Why the program ends before its input does.

ghost use Rattle.std.specs.Prelude.{◌≡◌};
ghost use Rattle.conformance.specs.Stop.{status_of};
ghost use Rattle.conformance.specs.declared.stop.Stop.TheVariants.{Memory};

use std::alloc::{AllocError, AllocFailed};
use thiserror::Error;

/// Why the program ends before its input does.
#[derive(Clone, Copy, Debug, PartialEq, Eq, Error)]
pub enum Stop {
    #[error("usage: conformance SET, the file of a descriptor set")]
    Usage,
    #[error("the file of the set cannot be read")]
    File,
    #[error("the set is refused: `pbtool check` tells why")]
    Set,
    /// The set lacks a type of the protocol, or has other fields in it.
    #[error("the set does not hold the suite's protocol")]
    Protocol,
    #[error("the input ends inside a request")]
    Cut,
    #[error("a response has more than 2147483647 bytes")]
    TooLarge,
    #[error("there are 2^64 requests or more")]
    TooMany,
    #[error("standard input or output failed")]
    Device,
    #[error("memory ran out")]
    Memory,
}

impl Stop {
    /// The exit status: 1 for a set that does not serve, 2 for other words than one path, 3 for files, devices and memory,
    /// 4 for a request that is cut off and 5 for what is too large or too much.
    pub fn status(self) -> u8
        ensures { result ≡ status_of self }
    {
        match self {
            Stop::Set | Stop::Protocol => 1,
            Stop::Usage => 2,
            Stop::File | Stop::Device | Stop::Memory => 3,
            Stop::Cut => 4,
            Stop::TooLarge | Stop::TooMany => 5,
        }
    }
}

impl From<AllocError> for Stop {
    ghost from_gives = { λ _ e. e ≡ Memory };

    fn from(_e: AllocError) -> Stop {
        Stop::Memory
    }
}

impl<T: Drop> From<AllocFailed<T>> for Stop {
    ghost from_gives = { λ _ e. e ≡ Memory };

    fn from(_e: AllocFailed<T>) -> Stop {
        Stop::Memory
    }
}
