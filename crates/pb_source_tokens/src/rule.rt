//! Rules beside the grammar, for the parser of `pb_source`.

/// A rule that a file keeps beside the grammar's lines. Each has a cause of its own.
#[derive(Clone, Copy, PartialEq, Eq)]
pub enum Rule {
    /// A number fits 32 bits.
    NumbersFit,
    /// No part of an option's name is in parentheses.
    OptionsKnown,
    /// A file begins with the syntax proto3.
    SyntaxFirst,
    /// Messages nest at most 64 deep.
    NestsBounded,
    /// The texts of imports and of reserved names are UTF-8.
    TextsValid,
}
