//! The forms of the text format that messages are written in.

/// How the fields of a message are laid out.
#[derive(Clone, Copy, Debug, PartialEq, Eq)]
pub enum Layout {
    /// Each field begins a line, two blanks deeper than the message that holds it.
    Lines,
    /// All fields are on one line, with a blank after each.
    OneLine,
}

/// How the characters of strings that are not ASCII are written.
#[derive(Clone, Copy, Debug, PartialEq, Eq)]
pub enum Characters {
    /// Byte by byte, in octal digits.
    Escaped,
    /// As they are, in UTF-8.
    Utf8,
}

/// What becomes of the records that no field of the schema has.
#[derive(Clone, Copy, Debug, PartialEq, Eq)]
pub enum UnknownRecords {
    /// They are written under the number of their field.
    ByNumber,
    /// They are left out.
    Omitted,
}

/// A form of the text format.
#[derive(Clone, Copy, Debug, PartialEq, Eq)]
pub struct TextForm {
    pub layout: Layout,
    pub characters: Characters,
    pub unknown: UnknownRecords,
}

impl TextForm {
    /// The form of `protoc --decode`.
    pub const PROTOC: TextForm = TextForm {
        layout: Layout::Lines,
        characters: Characters::Escaped,
        unknown: UnknownRecords::ByNumber,
    };
}
