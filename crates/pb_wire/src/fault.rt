//! What is wrong with bytes that are no message.

ghost use Rattle.std.specs.Prelude.{◌≡◌};
ghost use Rattle.pb_wire.specs.CauseName.{number_of, name_of, raw_number_of};
ghost use Rattle.pb_wire.specs.declared.fault.ReadError.TheVariants.{Fault, Memory};

use std::alloc::{AllocError, AllocFailed};
use std::error::Error as StdError;
use std::fmt;

/// Why bytes are refused. A cause shows as its name.
#[derive(Clone, Copy, Debug, PartialEq, Eq)]
pub enum Cause {
    /// The input ends inside a token, or with a payload or a group open.
    Truncated = 1,
    /// A token would pass a known end.
    PastEnd,
    /// Ten bytes of a varint all have the high bit.
    VarintTooLong,
    /// A tag is 2^32 or more.
    TagTooLarge,
    /// A record has the number 0.
    NumberZero,
    /// The wire type is 6 or 7.
    BadType,
    /// A group ends where the innermost open thing is no group.
    StrayEnd,
    /// A group ends with another number than it began with.
    WrongEnd,
    /// A length is above 2^31 - 1.
    LengthTooLarge,
    /// A string is not UTF-8.
    BadText,
    /// A message, an entry or a group nests too deep.
    TooDeep,
    /// There are more bytes than the limit allows.
    InputTooLarge,
}

impl Cause {
    /// The cause's number, from 1 to 12.
    pub fn number(self) -> u8
        ensures { result ≡ number_of self }
    {
        self as u8
    }

    /// The cause's name, as every printed fault has it.
    pub fn name(self) -> &'static str
        ensures { result.now ≡ name_of self }
    {
        match self {
            Cause::Truncated => "Truncated",
            Cause::PastEnd => "PastEnd",
            Cause::VarintTooLong => "VarintTooLong",
            Cause::TagTooLarge => "TagTooLarge",
            Cause::NumberZero => "NumberZero",
            Cause::BadType => "BadType",
            Cause::StrayEnd => "StrayEnd",
            Cause::WrongEnd => "WrongEnd",
            Cause::LengthTooLarge => "LengthTooLarge",
            Cause::BadText => "BadText",
            Cause::TooDeep => "TooDeep",
            Cause::InputTooLarge => "InputTooLarge",
        }
    }
}

impl fmt::Display for Cause {
    ghost use Rattle.std.specs.Prelude.{Some};

    ghost output = { λ cause. Some (name_of cause) };

    fn fmt<W: fmt::Write>(&self, f: &mut fmt::Formatter<W>) -> fmt::Result {
        f.write_str(self.name())
    }
}

impl StdError for Cause {}

/// A fault without the path that leads to it. It shows as its cause and byte.
#[derive(Clone, Copy, Debug, PartialEq, Eq)]
pub struct WireFault {
    pub byte: u64,
    pub cause: Cause,
}

impl fmt::Display for WireFault {
    ghost use Rattle.std.specs.Prelude.{Some};
    ghost use Rattle.pb_wire.specs.ErrorText.{fault_text};

    ghost output = { λ fault. Some (fault_text fault.byte fault.cause) };

    fn fmt<W: fmt::Write>(&self, f: &mut fmt::Formatter<W>) -> fmt::Result {
        write!(f, "{} at byte {}", self.cause, self.byte)
    }
}

impl StdError for WireFault {}

/// A step of a path: a record, by its number and by how many whole records of that number come before it in the payload
/// that holds it, whatever their wire types.
#[derive(Clone, Copy, Debug, PartialEq, Eq)]
pub struct PathStep {
    pub number: u32,
    pub occurrence: u32,
}

impl fmt::Display for PathStep {
    ghost use Rattle.std.specs.Prelude.{Some};
    ghost use Rattle.pb_wire.specs.PathText.{step_text};

    ghost output = { λ step. Some (step_text step) };

    fn fmt<W: fmt::Write>(&self, f: &mut fmt::Formatter<W>) -> fmt::Result {
        write!(f, "{}[{}]", self.number, self.occurrence)
    }
}

/// The steps of a path joined by dots, or `-` where there are none.
#[derive(Clone, Copy)]
struct Steps<'a>(&'a [PathStep]);

impl fmt::Display for Steps<'_> {
    ghost use Rattle.std.specs.Prelude.{Some};
    ghost use Rattle.pb_wire.specs.PathText.{path_text};

    ghost output = { λ steps. Some (path_text steps.0.now) };

    fn fmt<W: fmt::Write>(&self, f: &mut fmt::Formatter<W>) -> fmt::Result {
        let Some((first, others)) = self.0.split_first() else {
            return f.write_str("-");
        };
        write!(f, "{first}")?;
        for step in others {
            write!(f, ".{step}")?;
        }
        Ok(())
    }
}

/// Why records were not read or written. A fault shows as its cause, byte and path.
#[derive(Debug, Drop)]
pub enum RawError {
    /// The bytes are no records: where they fail, the steps to the open records outermost first, and why.
    Fault {
        byte: u64,
        path: Vec<PathStep>,
        cause: Cause,
    },
    Memory,
}

impl fmt::Display for RawError {
    ghost use Rattle.std.specs.Prelude.{Some};
    ghost use Rattle.pb_wire.specs.ErrorText.{error_text};

    ghost output = { λ error. Some (error_text error) };

    fn fmt<W: fmt::Write>(&self, f: &mut fmt::Formatter<W>) -> fmt::Result {
        match self {
            RawError::Fault { byte, path, cause } => {
                let steps = Steps(path);
                write!(f, "{cause} at byte {byte}, path {steps}")
            }
            RawError::Memory => f.write_str("out of memory"),
        }
    }
}

impl StdError for RawError {}

impl RawError {
    /// The error's number: 13 for a fault and 14 for out of memory.
    pub fn number(&self) -> u8
        ensures { result ≡ raw_number_of self.now }
    {
        match self {
            RawError::Fault {
                byte: _,
                path: _,
                cause: _,
            } => 13,
            RawError::Memory => 14,
        }
    }
}

/// A fault whose path is kept elsewhere, or out of memory.
#[derive(Debug, Drop)]
pub(crate) enum ReadError {
    Fault(WireFault),
    Memory,
}

impl From<AllocError> for ReadError {
    ghost from_gives = { λ _ e. e ≡ Memory };

    fn from(_e: AllocError) -> ReadError {
        ReadError::Memory
    }
}

impl<T: Drop> From<AllocFailed<T>> for ReadError {
    ghost from_gives = { λ _ e. e ≡ Memory };

    fn from(_e: AllocFailed<T>) -> ReadError {
        ReadError::Memory
    }
}

impl From<WireFault> for ReadError {
    ghost from_gives = { λ w e. e ≡ Fault w };

    fn from(fault: WireFault) -> ReadError {
        ReadError::Fault(fault)
    }
}
