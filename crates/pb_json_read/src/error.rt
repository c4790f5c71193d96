//! Why a text is not read as a message.

ghost use Rattle.std.specs.Prelude.{◌≡◌};
ghost use Rattle.pb_json_read.specs.declared.error.JsonReadCause.TheVariants.{BadValue};
ghost use Rattle.pb_json_read.specs.Faults.{cause_of, fault, name_of, out_of_memory};

use pb_json_text::{JsonCause, JsonFault};
use pb_value::ValueError;
use std::alloc::{AllocError, AllocFailed};
use std::error::Error as StdError;
use std::fmt;

/// Why a text is not read as a message. A cause shows as its name.
#[derive(Clone, Copy, Debug, PartialEq, Eq)]
pub enum JsonReadCause {
    /// No JSON text begins with the bytes up to this one.
    UnexpectedByte,
    /// The bytes only begin a JSON text.
    UnexpectedEnd,
    /// From this byte on the bytes are not UTF-8.
    BadUtf8,
    /// An array or object begins here, and nests too deep; or the message does that it is, the whole one or that in a `google.protobuf.Any`.
    TooDeep,
    /// A member has a name that no field has.
    UnknownName,
    /// A second member names the same field, the same key of a map, or the type of a `google.protobuf.Any`.
    RepeatedName,
    /// A second member sets a field of the same oneof.
    SecondMember,
    /// A name is not a key of the map.
    BadKey,
    /// A value is not one of the field, or names no type of the pool where it is the type of a `google.protobuf.Any`.
    BadValue,
    OutOfMemory,
}

/// Why a text is not read as a message, and the byte where what is refused begins, counted from 0.
#[derive(Clone, Copy, Debug, PartialEq, Eq)]
pub struct JsonReadError {
    pub byte: usize,
    pub cause: JsonReadCause,
}

impl JsonReadError {
    pub(crate) fn out_of_memory() -> JsonReadError
        ensures { result ≡ out_of_memory }
    {
        JsonReadError {
            byte: 0,
            cause: JsonReadCause::OutOfMemory,
        }
    }

    /// No value of a field, where it begins.
    pub(crate) fn bad_value(byte: usize) -> JsonReadError
        ensures { result ≡ fault byte BadValue }
    {
        JsonReadError {
            byte,
            cause: JsonReadCause::BadValue,
        }
    }
}

/// What is refused at this byte.
pub(crate) fn refused(byte: usize, cause: JsonReadCause) -> JsonReadError
    ensures { result ≡ fault byte cause }
{
    JsonReadError { byte, cause }
}

impl JsonReadCause {
    /// The cause's name.
    pub fn name(self) -> &'static str
        ensures { result.now ≡ name_of self }
    {
        match self {
            JsonReadCause::UnexpectedByte => "UnexpectedByte",
            JsonReadCause::UnexpectedEnd => "UnexpectedEnd",
            JsonReadCause::BadUtf8 => "BadUtf8",
            JsonReadCause::TooDeep => "TooDeep",
            JsonReadCause::UnknownName => "UnknownName",
            JsonReadCause::RepeatedName => "RepeatedName",
            JsonReadCause::SecondMember => "SecondMember",
            JsonReadCause::BadKey => "BadKey",
            JsonReadCause::BadValue => "BadValue",
            JsonReadCause::OutOfMemory => "OutOfMemory",
        }
    }
}

impl fmt::Display for JsonReadCause {
    ghost use Rattle.std.specs.Prelude.{Some};

    ghost output = { λ cause. Some (name_of cause) };

    fn fmt<W: fmt::Write>(&self, f: &mut fmt::Formatter<W>) -> fmt::Result {
        f.write_str(self.name())
    }
}

impl fmt::Display for JsonReadError {
    ghost use Rattle.std.specs.Prelude.{Some};
    ghost use Rattle.pb_json_read.specs.Faults.{error_text};

    ghost output = { λ e. Some (error_text e) };

    fn fmt<W: fmt::Write>(&self, f: &mut fmt::Formatter<W>) -> fmt::Result {
        write!(f, "byte {}: {}", self.byte, self.cause)
    }
}

impl StdError for JsonReadCause {}

impl StdError for JsonReadError {}

/// The cause of bytes that are no JSON text.
fn cause_of(cause: JsonCause) -> JsonReadCause
    ensures { result ≡ cause_of cause }
{
    match cause {
        JsonCause::UnexpectedByte => JsonReadCause::UnexpectedByte,
        JsonCause::UnexpectedEnd => JsonReadCause::UnexpectedEnd,
        JsonCause::BadUtf8 => JsonReadCause::BadUtf8,
        JsonCause::TooDeep => JsonReadCause::TooDeep,
        JsonCause::OutOfMemory => JsonReadCause::OutOfMemory,
    }
}

impl From<JsonFault> for JsonReadError {
    ghost use Rattle.pb_json_read.specs.Faults.{fault_of};

    ghost from_gives = { λ f e. e ≡ fault_of f };

    fn from(fault: JsonFault) -> JsonReadError {
        JsonReadError {
            byte: fault.byte,
            cause: cause_of(fault.cause),
        }
    }
}

impl From<AllocError> for JsonReadError {
    ghost from_gives = { λ _ e. e ≡ out_of_memory };

    fn from(_e: AllocError) -> JsonReadError {
        JsonReadError::out_of_memory()
    }
}

impl<T: Drop> From<AllocFailed<T>> for JsonReadError {
    ghost from_gives = { λ _ e. e ≡ out_of_memory };

    fn from(_failed: AllocFailed<T>) -> JsonReadError {
        JsonReadError::out_of_memory()
    }
}

// Putting a field into a message fails only when out of memory.
impl From<ValueError> for JsonReadError {
    ghost from_gives = { λ _ e. e ≡ out_of_memory };

    fn from(_e: ValueError) -> JsonReadError {
        JsonReadError::out_of_memory()
    }
}
