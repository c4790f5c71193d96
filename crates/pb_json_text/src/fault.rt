//! Why bytes are no JSON text.

ghost use Rattle.std.specs.Prelude.{◌≡◌};
ghost use Rattle.pb_json_text.specs.CauseName.{name_of};

use std::alloc::{AllocError, AllocFailed};
use std::error::Error as StdError;
use std::fmt;

/// Why bytes are no JSON text.
#[derive(Clone, Copy, Debug, PartialEq, Eq, Hash)]
pub enum JsonCause {
    /// No JSON text begins with the bytes up to this one.
    UnexpectedByte,
    /// The bytes only begin a JSON text.
    UnexpectedEnd,
    /// From this byte on the bytes are not UTF-8.
    BadUtf8,
    /// An array or object begins here, and nests too deep.
    TooDeep,
    OutOfMemory,
}

/// Why bytes are no JSON text, and the byte where that is seen, counted from 0.
#[derive(Clone, Copy, Debug, PartialEq, Eq, Hash)]
pub struct JsonFault {
    pub byte: usize,
    pub cause: JsonCause,
}

impl JsonCause {
    /// The cause's name.
    pub fn name(self) -> &'static str
        ensures { result.now ≡ name_of self }
    {
        match self {
            JsonCause::UnexpectedByte => "UnexpectedByte",
            JsonCause::UnexpectedEnd => "UnexpectedEnd",
            JsonCause::BadUtf8 => "BadUtf8",
            JsonCause::TooDeep => "TooDeep",
            JsonCause::OutOfMemory => "OutOfMemory",
        }
    }
}

impl JsonFault {
    pub(crate) fn unexpected(byte: usize) -> JsonFault
        ensures byte { result.byte ≡ byte }
        ensures cause { result.cause ≡ JsonCause.UnexpectedByte }
    {
        JsonFault {
            byte,
            cause: JsonCause::UnexpectedByte,
        }
    }

    pub(crate) fn end(byte: usize) -> JsonFault
        ensures byte { result.byte ≡ byte }
        ensures cause { result.cause ≡ JsonCause.UnexpectedEnd }
    {
        JsonFault {
            byte,
            cause: JsonCause::UnexpectedEnd,
        }
    }

    pub(crate) fn bad_utf8(byte: usize) -> JsonFault
        ensures byte { result.byte ≡ byte }
        ensures cause { result.cause ≡ JsonCause.BadUtf8 }
    {
        JsonFault {
            byte,
            cause: JsonCause::BadUtf8,
        }
    }

    pub(crate) fn too_deep(byte: usize) -> JsonFault
        ensures byte { result.byte ≡ byte }
        ensures cause { result.cause ≡ JsonCause.TooDeep }
    {
        JsonFault {
            byte,
            cause: JsonCause::TooDeep,
        }
    }
}

impl fmt::Display for JsonCause {
    ghost use Rattle.std.specs.Prelude.{Some};

    ghost output = { λ cause. Some (name_of cause) };

    fn fmt<W: fmt::Write>(&self, f: &mut fmt::Formatter<W>) -> fmt::Result {
        f.write_str(self.name())
    }
}

impl fmt::Display for JsonFault {
    ghost use Rattle.std.specs.Prelude.{Some};
    ghost use Rattle.pb_json_text.specs.CauseName.{fault_text};

    ghost output = { λ fault. Some (fault_text fault.byte fault.cause) };

    fn fmt<W: fmt::Write>(&self, f: &mut fmt::Formatter<W>) -> fmt::Result {
        write!(f, "byte {}: {}", self.byte, self.cause)
    }
}

impl StdError for JsonFault {}

impl From<AllocError> for JsonFault {
    ghost use Rattle.pb_json_text.specs.Fault.{out_of_memory};

    ghost from_gives = { λ _ e. e ≡ out_of_memory };

    fn from(_: AllocError) -> JsonFault {
        JsonFault {
            byte: 0,
            cause: JsonCause::OutOfMemory,
        }
    }
}

impl<T: Drop> From<AllocFailed<T>> for JsonFault {
    ghost use Rattle.pb_json_text.specs.Fault.{out_of_memory};

    ghost from_gives = { λ _ e. e ≡ out_of_memory };

    fn from(_failed: AllocFailed<T>) -> JsonFault {
        JsonFault {
            byte: 0,
            cause: JsonCause::OutOfMemory,
        }
    }
}
