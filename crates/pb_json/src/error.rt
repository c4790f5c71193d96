//! Why messages are not written.

ghost use Rattle.std.specs.Prelude.{◌≡◌};
ghost use Rattle.pb_json.specs.CauseName.{name_of};
ghost use Rattle.pb_json.specs.declared.error.JsonError.TheVariants.{Memory};

use std::alloc::{AllocError, AllocFailed};
use std::error::Error as StdError;
use std::fmt;

/// Why a message has no JSON form. A cause shows as its name.
#[derive(Clone, Copy, Debug, PartialEq, Eq)]
pub enum JsonCause {
    /// A `google.protobuf.Value` holds nothing.
    NoKind,
    /// A `google.protobuf.Value` holds a NaN or an infinity.
    NotFinite,
    /// A `google.protobuf.Timestamp` or `Duration` is out of the range that its file gives.
    OutOfRange,
    /// A path of a `google.protobuf.FieldMask` would not be read back from lowerCamelCase.
    BadPath,
    /// A `google.protobuf.Any` names no type of the pool, or its bytes are no encoding of that type, or what it holds is nested too deep.
    Unsupported,
}

impl JsonCause {
    /// The cause's name.
    pub fn name(self) -> &'static str
        ensures { result.now ≡ name_of self }
    {
        match self {
            JsonCause::NoKind => "NoKind",
            JsonCause::NotFinite => "NotFinite",
            JsonCause::OutOfRange => "OutOfRange",
            JsonCause::BadPath => "BadPath",
            JsonCause::Unsupported => "Unsupported",
        }
    }
}

impl fmt::Display for JsonCause {
    ghost use Rattle.std.specs.Prelude.{Some};

    ghost output = { λ cause. Some (name_of cause) };

    fn fmt<W: fmt::Write>(&self, f: &mut fmt::Formatter<W>) -> fmt::Result {
        f.write_str(self.name())
    }
}

impl StdError for JsonCause {}

/// The first part of a message that has no JSON form: why, and the numbers of the fields that lead to it.
#[derive(Debug, Drop)]
pub struct Refusal {
    pub path: Vec<u32>,
    pub cause: JsonCause,
}

/// Why a message is not written.
#[derive(Debug, Drop)]
pub enum JsonError {
    /// A part of the message has no JSON form, and nothing was written.
    Refused(Refusal),
    /// There is no memory for the path of a part that has no JSON form, or for the message in a `google.protobuf.Any`, and nothing was written.
    Memory,
    /// The output failed, after a prefix of what was to be written.
    Output,
}

impl From<AllocError> for JsonError {
    ghost from_gives = { λ _ e. e ≡ Memory };

    fn from(_e: AllocError) -> JsonError {
        JsonError::Memory
    }
}

impl Refusal {
    ghost use Rattle.std.specs.Prelude.{Some};
    ghost use Rattle.pb_json.specs.Answers.{RefusesWith, refused_view};
    ghost use Rattle.pb_json.specs.Refusals.{below};
    ghost use Rattle.pb_schema.specs.Types.{Types};

    /// The error of a part, as that of the message that has the part at the field of a number.
    fn below(mut self, number: u32) -> JsonError
        ensures { (pool : Types) → RefusesWith pool (Some (below number (refused_view self))) result }
    {
        match self.path.insert(0, number) {
            Ok(()) => JsonError::Refused(self),
            Err(_) => JsonError::Memory,
        }
    }
}

impl JsonError {
    ghost use Rattle.std.specs.Prelude.{Option, option_map};
    ghost use Rattle.pb_json.specs.Answers.{RefusesWith};
    ghost use Rattle.pb_json.specs.Refusals.{Refused, below};
    ghost use Rattle.pb_schema.specs.Types.{Types};

    /// The error of a part, as that of the message that has the part at the field of a number.
    pub(crate) fn below(self, number: u32) -> JsonError
        ensures { (pool : Types) (r : Option Refused) → RefusesWith pool r self → RefusesWith pool (option_map (below number) r) result }
    {
        match self {
            JsonError::Refused(refusal) => refusal.below(number),
            JsonError::Memory => JsonError::Memory,
            JsonError::Output => JsonError::Output,
        }
    }
}
