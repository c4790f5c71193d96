//! Why a source is refused.

ghost use Rattle.std.specs.Prelude.{◌≡◌};
ghost use Rattle.pb_source_tokens.specs.CauseName.{number_of, name_of};

use std::alloc::{AllocError, AllocFailed};
use std::error::Error as StdError;
use std::fmt;
use thiserror::Error;

/// Why a source is refused. A cause shows as its name.
#[derive(Clone, Copy, Debug, PartialEq, Eq)]
pub enum SourceCause {
    /// The source has more than 2^31 - 1 bytes.
    SourceTooLarge,
    /// The source, an import or a reserved name is not UTF-8.
    BadUtf8,
    /// A character begins no token, or a text holds a NUL or a `\` of no escape.
    BadToken,
    /// A comment is not closed.
    OpenComment,
    /// A text is not closed on its line.
    OpenText,
    /// No file begins with the tokens up to this one.
    Unexpected,
    /// A number does not fit 32 bits.
    NumberTooLarge,
    /// A part of an option's name is in parentheses.
    CustomOption,
    /// The file does not begin with its syntax, or the syntax is another one.
    NotProto3,
    /// Messages nest more than 64 deep.
    NestedTooDeep,
    /// Memory ran out.
    Memory,
}

impl SourceCause {
    /// The cause's number: 50, or from 61 to 70.
    pub fn number(self) -> u8
        ensures { result ≡ number_of self }
    {
        match self {
            SourceCause::SourceTooLarge => 50,
            SourceCause::BadUtf8 => 61,
            SourceCause::BadToken => 62,
            SourceCause::OpenComment => 63,
            SourceCause::OpenText => 64,
            SourceCause::Unexpected => 65,
            SourceCause::NumberTooLarge => 66,
            SourceCause::CustomOption => 67,
            SourceCause::NotProto3 => 68,
            SourceCause::NestedTooDeep => 69,
            SourceCause::Memory => 70,
        }
    }

    /// The cause's name, as every printed fault has it.
    pub fn name(self) -> &'static str
        ensures { result.now ≡ name_of self }
    {
        match self {
            SourceCause::SourceTooLarge => "SourceTooLarge",
            SourceCause::BadUtf8 => "BadUtf8",
            SourceCause::BadToken => "BadToken",
            SourceCause::OpenComment => "OpenComment",
            SourceCause::OpenText => "OpenText",
            SourceCause::Unexpected => "Unexpected",
            SourceCause::NumberTooLarge => "NumberTooLarge",
            SourceCause::CustomOption => "CustomOption",
            SourceCause::NotProto3 => "NotProto3",
            SourceCause::NestedTooDeep => "NestedTooDeep",
            SourceCause::Memory => "Memory",
        }
    }
}

impl fmt::Display for SourceCause {
    ghost use Rattle.std.specs.Prelude.{Some};

    ghost output = { λ cause. Some (name_of cause) };

    fn fmt<W: fmt::Write>(&self, f: &mut fmt::Formatter<W>) -> fmt::Result {
        f.write_str(self.name())
    }
}

impl StdError for SourceCause {}

/// What is wrong with a source, and the byte of the source where it is reported; where memory ran out, the byte is 0.
#[derive(Clone, Copy, Debug, PartialEq, Eq, Error)]
#[error("{cause} at byte {byte}")]
pub struct SourceFault {
    pub byte: u64,
    pub cause: SourceCause,
}

impl From<AllocError> for SourceFault {
    ghost use Rattle.pb_source_tokens.specs.Fault.{out_of_memory};

    ghost from_gives = { λ _ e. e ≡ out_of_memory };

    fn from(_e: AllocError) -> SourceFault {
        SourceFault {
            byte: 0,
            cause: SourceCause::Memory,
        }
    }
}

impl<T: Drop> From<AllocFailed<T>> for SourceFault {
    ghost use Rattle.pb_source_tokens.specs.Fault.{out_of_memory};

    ghost from_gives = { λ _ e. e ≡ out_of_memory };

    fn from(_e: AllocFailed<T>) -> SourceFault {
        SourceFault {
            byte: 0,
            cause: SourceCause::Memory,
        }
    }
}
