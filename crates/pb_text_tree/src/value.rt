//! The parts of a text, as a tree (Text Format Language Specification, "Fields" and "Values").

use pb_text_tokens::TokenKind;

/// A single value that is no message.
#[derive(Drop)]
pub enum TextScalar<'a> {
    /// The bytes that one string means, or several that follow one another.
    Quoted(Vec<u8>),
    /// A word or a number, by its characters, after a minus or without one.
    Plain {
        is_negative: bool,
        kind: TokenKind,
        text: &'a [u8],
    },
}

/// A single value that is no message, and the byte where it begins, counted from 0.
#[derive(Drop)]
pub struct PlacedScalar<'a> {
    pub at: usize,
    pub scalar: TextScalar<'a>,
}

/// What names a field.
#[derive(Drop)]
pub enum TextName<'a> {
    Word(&'a [u8]),
    /// A number in decimal digits.
    Number(&'a [u8]),
    /// A name in brackets, as `[a.b]`, without blanks.
    Extension(Vec<u8>),
    /// A domain and a type in brackets, as `[type.googleapis.com/a.b]`, without blanks.
    Any { domain: Vec<u8>, message: Vec<u8> },
}

/// A field, and the byte where its name begins.
#[cycle(tree)]
#[derive(Drop)]
pub struct TextField<'a> {
    pub at: usize,
    pub name: TextName<'a>,
    pub value: TextValue<'a>,
}

/// What a field has after its name.
#[cycle(tree)]
#[derive(Drop)]
pub enum TextValue<'a> {
    Scalar(PlacedScalar<'a>),
    Message(TextMessage<'a>),
    /// A list of single values, or an empty list after a colon.
    Scalars(Vec<PlacedScalar<'a>>),
    /// A list of messages, or an empty list without a colon.
    Messages(Vec<TextMessage<'a>>),
}

/// A message between braces, and the byte of the first brace.
#[cycle(tree)]
#[derive(Drop)]
pub struct TextMessage<'a> {
    pub at: usize,
    pub fields: Vec<TextField<'a>>,
}
