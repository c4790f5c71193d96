//! Why a text is no list of fields.

ghost use Rattle.std.specs.Prelude.{◌≡◌};
ghost use Rattle.pb_text_tree.specs.Fault.{cause_of};

use pb_text_tokens::{TokenCause, TokenFault};
use std::alloc::{AllocError, AllocFailed};

/// Why a text is no list of fields.
#[derive(Clone, Copy, Debug, PartialEq, Eq)]
pub enum SyntaxCause {
    /// No token begins with this byte, or a string or comment has a NUL.
    UnexpectedByte,
    /// A number is none of the four forms, or a letter, `_` or `.` follows it.
    BadNumber,
    /// A string ends at its line's end, or at the end of the text, without its quote.
    OpenString,
    /// A `\` in a string begins no escape.
    BadEscape,
    /// No text goes on with this token.
    UnexpectedToken,
    /// The text ends too early.
    UnexpectedEnd,
    /// A message begins here, and nests too deep.
    TooDeep,
    OutOfMemory,
}

/// Why a text is no list of fields, and the byte where that is seen, counted from 0.
#[derive(Clone, Copy, Debug, PartialEq, Eq)]
pub struct SyntaxFault {
    pub byte: usize,
    pub cause: SyntaxCause,
}

/// The cause of a text that has no tokens.
fn cause_of(cause: TokenCause) -> SyntaxCause
    ensures { result ≡ cause_of cause }
{
    match cause {
        TokenCause::UnexpectedByte => SyntaxCause::UnexpectedByte,
        TokenCause::BadNumber => SyntaxCause::BadNumber,
        TokenCause::OpenString => SyntaxCause::OpenString,
        TokenCause::BadEscape => SyntaxCause::BadEscape,
        TokenCause::OutOfMemory => SyntaxCause::OutOfMemory,
    }
}

impl From<TokenFault> for SyntaxFault {
    ghost use Rattle.pb_text_tree.specs.Fault.{fault_of};

    ghost from_gives = { λ f e. e ≡ fault_of f };

    fn from(fault: TokenFault) -> SyntaxFault {
        SyntaxFault {
            byte: fault.byte,
            cause: cause_of(fault.cause),
        }
    }
}

impl From<AllocError> for SyntaxFault {
    ghost use Rattle.pb_text_tree.specs.Fault.{out_of_memory};

    ghost from_gives = { λ _ e. e ≡ out_of_memory };

    fn from(_: AllocError) -> SyntaxFault {
        SyntaxFault {
            byte: 0,
            cause: SyntaxCause::OutOfMemory,
        }
    }
}

impl<T: Drop> From<AllocFailed<T>> for SyntaxFault {
    ghost use Rattle.pb_text_tree.specs.Fault.{out_of_memory};

    ghost from_gives = { λ _ e. e ≡ out_of_memory };

    fn from(_failed: AllocFailed<T>) -> SyntaxFault {
        SyntaxFault {
            byte: 0,
            cause: SyntaxCause::OutOfMemory,
        }
    }
}
