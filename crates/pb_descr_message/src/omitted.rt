//! What lenient reading leaves out of a set.

ghost use Rattle.std.specs.Prelude.{◌≡◌};
ghost use Rattle.pb_descr_message.specs.OmittedName.{part_name};

use std::fmt;

/// What of a declaration is left out. It shows as its name.
#[derive(Clone, Copy, PartialEq, Eq, Debug)]
pub enum OmittedPart {
    /// An extension that a file or a message declares.
    Extension,
    /// A range of field numbers that a message leaves to extensions.
    ExtensionRange,
    /// The label of a required field, which counts as optional.
    Required,
    /// The default value of a field.
    DefaultValue,
    /// The mark of the entry of a map whose values are of a closed enum. The map counts as the list of its entries.
    ClosedMap,
}

impl OmittedPart {
    /// The part's name.
    pub fn name(self) -> &'static str
        ensures { result.now ≡ part_name self }
    {
        match self {
            OmittedPart::Extension => "Extension",
            OmittedPart::ExtensionRange => "ExtensionRange",
            OmittedPart::Required => "Required",
            OmittedPart::DefaultValue => "DefaultValue",
            OmittedPart::ClosedMap => "ClosedMap",
        }
    }
}

impl fmt::Display for OmittedPart {
    ghost use Rattle.std.specs.Prelude.{Some};

    ghost output = { λ part. Some (part_name part) };

    fn fmt<W: fmt::Write>(&self, f: &mut fmt::Formatter<W>) -> fmt::Result {
        f.write_str(self.name())
    }
}

/// A part of a declaration that is left out.
#[derive(Debug, PartialEq, Drop)]
pub struct Omitted {
    /// The index of the file in the set.
    pub file: usize,
    /// The full name of the declaration: of an extension or a field, of a range's message, or of a map's entry.
    pub name: String,
    pub part: OmittedPart,
}
