//! Why changes of messages are refused.

ghost use Rattle.std.specs.Prelude.{◌≡◌};
ghost use Rattle.pb_value.specs.ErrorName.{number_of, name_of};
ghost use Rattle.pb_value.specs.declared.error.ValueError.TheVariants.{Memory};

use std::alloc::{AllocError, AllocFailed};
use std::error::Error as StdError;
use std::fmt;

/// Why a body or a change is refused. A cause shows as its name.
#[derive(Clone, Copy, Debug, PartialEq, Eq)]
pub enum ValueError {
    /// The type has no field of the number, or an unknown record has a number that no record may have.
    NoSuchField,
    /// A value or a key is of another kind.
    WrongKind,
    /// A content is of another shape than the field, or the call is for another shape.
    WrongShape,
    /// A field of implicit presence holds its default, or a list or map is stored empty.
    DefaultStored,
    /// A oneof has a second member.
    TwoMembers,
    /// An unknown record fits a field.
    KnownAsUnknown,
    /// The message nests more than 100 levels below itself.
    TooDeep,
    /// There is no memory.
    Memory,
    /// Two messages are of different types, or their pools hold different types.
    OtherType,
    /// A closed enum declares no value with the number.
    NoSuchValue,
}

impl ValueError {
    /// The cause's number, from 21 to 30.
    pub fn number(self) -> u8
        ensures { result ≡ number_of self }
    {
        match self {
            ValueError::NoSuchField => 21,
            ValueError::WrongKind => 22,
            ValueError::WrongShape => 23,
            ValueError::DefaultStored => 24,
            ValueError::TwoMembers => 25,
            ValueError::KnownAsUnknown => 26,
            ValueError::TooDeep => 27,
            ValueError::Memory => 28,
            ValueError::OtherType => 29,
            ValueError::NoSuchValue => 30,
        }
    }

    /// The cause's name.
    pub fn name(self) -> &'static str
        ensures { result.now ≡ name_of self }
    {
        match self {
            ValueError::NoSuchField => "NoSuchField",
            ValueError::WrongKind => "WrongKind",
            ValueError::WrongShape => "WrongShape",
            ValueError::DefaultStored => "DefaultStored",
            ValueError::TwoMembers => "TwoMembers",
            ValueError::KnownAsUnknown => "KnownAsUnknown",
            ValueError::TooDeep => "TooDeep",
            ValueError::Memory => "Memory",
            ValueError::OtherType => "OtherType",
            ValueError::NoSuchValue => "NoSuchValue",
        }
    }
}

impl fmt::Display for ValueError {
    ghost use Rattle.std.specs.Prelude.{Some};

    ghost output = { λ cause. Some (name_of cause) };

    fn fmt<W: fmt::Write>(&self, f: &mut fmt::Formatter<W>) -> fmt::Result {
        f.write_str(self.name())
    }
}

impl StdError for ValueError {}

impl From<AllocError> for ValueError {
    ghost from_gives = { λ _ e. e ≡ Memory };

    fn from(_e: AllocError) -> ValueError {
        ValueError::Memory
    }
}

impl<T: Drop> From<AllocFailed<T>> for ValueError {
    ghost from_gives = { λ _ e. e ≡ Memory };

    fn from(_e: AllocFailed<T>) -> ValueError {
        ValueError::Memory
    }
}
