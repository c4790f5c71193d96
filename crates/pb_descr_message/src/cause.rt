//! Why a file of a set is not read.

ghost use Rattle.std.specs.Prelude.{◌≡◌};
ghost use Rattle.pb_descr_message.specs.CauseName.{number_of, name_of};

use std::error::Error as StdError;
use std::fmt;

/// What a declaration shows that is not read. A cause shows as its name.
#[derive(Clone, Copy, PartialEq, Eq, Debug)]
pub enum DeclCause {
    /// A file, message, field, oneof, enum, value, service or method has no name, or an empty one.
    MissingName,
    /// A label is not 1 to 3.
    BadLabel,
    /// A type is not 1 to 18, or there is neither a type nor a type name.
    BadTypeNumber,
    /// A file or message declares an extension, a message an extension range, or a field extends a message.
    Extension,
    /// The syntax is neither `proto2` nor `proto3`.
    NotProto3,
    /// The label is `required`.
    Required,
    /// The type is a group, and the file is not of proto2.
    Group,
    /// A field has a default value.
    DefaultValue,
}

impl DeclCause {
    /// The cause's number, from 52 to 60; 59 is out of memory.
    pub fn number(self) -> u8
        ensures { result ≡ number_of self }
    {
        match self {
            DeclCause::MissingName => 52,
            DeclCause::BadLabel => 53,
            DeclCause::BadTypeNumber => 54,
            DeclCause::Extension => 55,
            DeclCause::NotProto3 => 56,
            DeclCause::Required => 57,
            DeclCause::Group => 58,
            DeclCause::DefaultValue => 60,
        }
    }

    /// The cause's name.
    pub fn name(self) -> &'static str
        ensures { result.now ≡ name_of self }
    {
        match self {
            DeclCause::MissingName => "MissingName",
            DeclCause::BadLabel => "BadLabel",
            DeclCause::BadTypeNumber => "BadTypeNumber",
            DeclCause::Extension => "Extension",
            DeclCause::NotProto3 => "NotProto3",
            DeclCause::Required => "Required",
            DeclCause::Group => "Group",
            DeclCause::DefaultValue => "DefaultValue",
        }
    }
}

impl fmt::Display for DeclCause {
    ghost use Rattle.std.specs.Prelude.{Some};

    ghost output = { λ cause. Some (name_of cause) };

    fn fmt<W: fmt::Write>(&self, f: &mut fmt::Formatter<W>) -> fmt::Result {
        f.write_str(self.name())
    }
}

impl StdError for DeclCause {}
