//! Why changes at places are refused.

ghost use Rattle.std.specs.Prelude.{◌≡◌};
ghost use Rattle.pb_value.specs.declared.error.ValueError.TheVariants.{Memory};
ghost use Rattle.pb_place.specs.ErrorName.{error_name};
ghost use Rattle.pb_place.specs.declared.error.ChangeError.TheVariants.{Refused};

use pb_value::ValueError;
use std::error::Error as StdError;
use std::fmt;

/// Why a change at a place is refused. It shows as its cause's name.
#[derive(Clone, Copy, Debug, PartialEq, Eq)]
pub enum ChangeError {
    /// The message is not there: a field on the way is not set, a list is shorter, a map has no such key, a step does not fit what it
    /// is taken from, or the place does not end at a field.
    Absent,
    /// The message is there, and refuses the change.
    Refused(ValueError),
}

impl ChangeError {
    /// The cause's name.
    pub fn name(self) -> &'static str
        ensures { result.now ≡ error_name self }
    {
        match self {
            ChangeError::Absent => "Absent",
            ChangeError::Refused(cause) => cause.name(),
        }
    }
}

impl fmt::Display for ChangeError {
    ghost use Rattle.std.specs.Prelude.{Some};

    ghost output = { λ cause. Some (error_name cause) };

    fn fmt<W: fmt::Write>(&self, f: &mut fmt::Formatter<W>) -> fmt::Result {
        f.write_str(self.name())
    }
}

impl StdError for ChangeError {}

impl From<ValueError> for ChangeError {
    ghost from_gives = { λ cause e. e ≡ Refused cause };

    fn from(cause: ValueError) -> ChangeError {
        ChangeError::Refused(cause)
    }
}
