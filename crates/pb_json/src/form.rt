//! The forms that JSON is written in.

use crate::given::JsonNames;

/// How the names of fields are written.
#[derive(Clone, Copy, Debug)]
pub enum Names<'a> {
    /// Without underscores, and the letter after one in upper case.
    LowerCamel,
    /// As the field is declared.
    Declared,
    /// As a table gives it, and of other fields as in `LowerCamel`.
    Given(&'a JsonNames),
}

/// How values are laid out.
#[derive(Clone, Copy, Debug, PartialEq, Eq)]
pub enum Layout {
    /// On one line, without blanks.
    Compact,
    /// Each member and each element on its own line, two blanks deeper than what holds it.
    Indented,
}

/// A form of JSON.
#[derive(Clone, Copy, Debug)]
pub struct JsonForm<'a> {
    pub names: Names<'a>,
    pub layout: Layout,
}
