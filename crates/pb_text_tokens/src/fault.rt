//! Why a text has no tokens.

ghost use Rattle.std.specs.Prelude.{◌≡◌};

use std::alloc::{AllocError, AllocFailed};

/// Why a text has no tokens.
#[derive(Clone, Copy, Debug, PartialEq, Eq)]
pub enum TokenCause {
    /// No token begins with this byte, or a string or comment has a NUL.
    UnexpectedByte,
    /// A number is none of the four forms, or a letter, `_` or `.` follows it.
    BadNumber,
    /// A string ends at its line's end, or at the end of the text, without its quote.
    OpenString,
    /// A `\` in a string begins no escape.
    BadEscape,
    OutOfMemory,
}

/// Why a text has no tokens, and the byte where that is seen, counted from 0.
#[derive(Clone, Copy, Debug, PartialEq, Eq)]
pub struct TokenFault {
    pub byte: usize,
    pub cause: TokenCause,
}

impl From<AllocError> for TokenFault {
    ghost use Rattle.pb_text_tokens.specs.Fault.{out_of_memory};

    ghost from_gives = { λ _ e. e ≡ out_of_memory };

    fn from(_: AllocError) -> TokenFault {
        TokenFault {
            byte: 0,
            cause: TokenCause::OutOfMemory,
        }
    }
}

impl<T: Drop> From<AllocFailed<T>> for TokenFault {
    ghost use Rattle.pb_text_tokens.specs.Fault.{out_of_memory};

    ghost from_gives = { λ _ e. e ≡ out_of_memory };

    fn from(_failed: AllocFailed<T>) -> TokenFault {
        TokenFault {
            byte: 0,
            cause: TokenCause::OutOfMemory,
        }
    }
}
