//! Why files do not link.

ghost use Rattle.std.specs.Prelude.{◌≡◌};
ghost use Rattle.pb_link_rules.specs.CauseName.{cause_number, cause_name};

use std::error::Error as StdError;
use std::fmt;

/// The rule of linking that fails. A cause shows as its name.
#[derive(Clone, Copy, PartialEq, Eq, Debug)]
pub enum LinkCause {
    /// An earlier file has the file's name.
    TwoFiles,
    /// An import names no file, an index of a public import lies outside the imports, or there are more than 2^31 - 1 imports.
    MissingImport,
    /// The file reaches itself by imports.
    ImportCycle,
    /// A name is no word, a package is not empty and not words joined by dots, or a file has no name.
    BadName,
    /// An earlier declaration or a package has the full name.
    NameTaken,
    /// A type name is not declared.
    NotFound,
    /// A type name means a type that the file does not see through its imports.
    NotVisible,
    /// A type name means something that is not a type.
    NotAType,
    /// A field's number is not 1 to 536,870,911, or is 19,000 to 19,999.
    BadNumber,
    /// An earlier field of the message, or an earlier value of an enum without aliases, has the number.
    NumberTaken,
    /// The number or the name is reserved.
    Reserved,
    /// A oneof's index or its members are not right, or a field of proto2 is marked `proto3_optional`.
    BadOneof,
    /// An entry message or a use of one is not that of a map field.
    BadMap,
    /// `packed` is set on a field that is not a repeated field of a packable kind.
    BadPacked,
    /// An enum has no first value, or that is not 0 in a file of proto3.
    BadEnum,
    /// The type's number and its name do not agree, a file of proto3 has a group, or a method's type is no message.
    KindMismatch,
    /// A reserved range is empty, out of bounds, or overlaps another.
    BadRange,
    /// A field of an entry message, or in a file of proto3, is of an enum of a file of proto2.
    ClosedEnum,
}

impl LinkCause {
    /// The cause's number, from 71 to 89; 88 is out of memory.
    pub fn number(self) -> u8
        ensures { result ≡ cause_number self }
    {
        match self {
            LinkCause::TwoFiles => 71,
            LinkCause::MissingImport => 72,
            LinkCause::ImportCycle => 73,
            LinkCause::BadName => 74,
            LinkCause::NameTaken => 75,
            LinkCause::NotFound => 76,
            LinkCause::NotVisible => 77,
            LinkCause::NotAType => 78,
            LinkCause::BadNumber => 79,
            LinkCause::NumberTaken => 80,
            LinkCause::Reserved => 81,
            LinkCause::BadOneof => 82,
            LinkCause::BadMap => 83,
            LinkCause::BadPacked => 84,
            LinkCause::BadEnum => 85,
            LinkCause::KindMismatch => 86,
            LinkCause::BadRange => 87,
            LinkCause::ClosedEnum => 89,
        }
    }

    /// The cause's name.
    pub fn name(self) -> &'static str
        ensures { result.now ≡ cause_name self }
    {
        match self {
            LinkCause::TwoFiles => "TwoFiles",
            LinkCause::MissingImport => "MissingImport",
            LinkCause::ImportCycle => "ImportCycle",
            LinkCause::BadName => "BadName",
            LinkCause::NameTaken => "NameTaken",
            LinkCause::NotFound => "NotFound",
            LinkCause::NotVisible => "NotVisible",
            LinkCause::NotAType => "NotAType",
            LinkCause::BadNumber => "BadNumber",
            LinkCause::NumberTaken => "NumberTaken",
            LinkCause::Reserved => "Reserved",
            LinkCause::BadOneof => "BadOneof",
            LinkCause::BadMap => "BadMap",
            LinkCause::BadPacked => "BadPacked",
            LinkCause::BadEnum => "BadEnum",
            LinkCause::KindMismatch => "KindMismatch",
            LinkCause::BadRange => "BadRange",
            LinkCause::ClosedEnum => "ClosedEnum",
        }
    }
}

impl fmt::Display for LinkCause {
    ghost use Rattle.std.specs.Prelude.{Some};

    ghost output = { λ cause. Some (cause_name cause) };

    fn fmt<W: fmt::Write>(&self, f: &mut fmt::Formatter<W>) -> fmt::Result {
        f.write_str(self.name())
    }
}

impl StdError for LinkCause {}
