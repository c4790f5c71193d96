//! What comes next in a path.

ghost use Rattle.std.specs.Prelude.{◌≡◌, None, Some};
ghost use Rattle.pb_c_paths.specs.Reading.{after_name, after_value, bracketed, digit_of, is_many, is_string, key_in};

use pb_schema::{Kind, MessageId, Shape};

/// What comes next in a path, after what has been read of it.
#[derive(Clone, Copy, Debug, PartialEq, Eq)]
pub enum Reading {
    /// The name of a field of this message type.
    Name(MessageId),
    /// The digits of an index, in a list of values of this kind.
    Index(Kind),
    /// A key of the first kind, of a map to values of the second.
    Key(Kind, Kind),
    /// The quote before a string that is a key, of a map to values of this kind.
    Quote(Kind),
    /// The bytes of this string.
    Text(Kind),
    /// What follows a backslash there.
    Escape(Kind),
    /// The first of two digits after `\x`.
    High(Kind),
    /// The second one, after the first.
    Low(Kind, u8),
    /// The bracket after the string.
    Closing(Kind),
    /// The end, or a dot, after a value of this kind.
    After(Kind),
}

/// The name of a field of a message, after a dot.
pub(crate) fn after_value(kind: Kind, byte: u8) -> Option<Reading>
    ensures { result ≡ after_value kind byte }
{
    if byte != 46 {
        return None;
    }
    match kind {
        Kind::Message(message) | Kind::Group(message) => Some(Reading::Name(message)),
        _ => None,
    }
}

fn is_string(key: Kind) -> bool
    ensures { result ≡ is_string key }
{
    matches!(key, Kind::Text)
}

/// A string in quotes, or digits or a word.
fn key_in(key: Kind, kind: Kind) -> Reading
    ensures { result ≡ key_in key kind }
{
    if is_string(key) {
        Reading::Quote(kind)
    } else {
        Reading::Key(key, kind)
    }
}

/// An index or a key, after a bracket.
fn bracketed(shape: Shape, kind: Kind) -> Option<Reading>
    ensures { result ≡ bracketed shape kind }
{
    match shape {
        Shape::List { packed: _ } => Some(Reading::Index(kind)),
        Shape::Map { key } => Some(key_in(key, kind)),
        _ => None,
    }
}

fn is_many(shape: Shape) -> bool
    ensures { result ≡ is_many shape }
{
    matches!(shape, Shape::List { packed: _ } | Shape::Map { key: _ })
}

/// What comes after the name of a field, from this byte on.
pub(crate) fn after_name(shape: Shape, kind: Kind, byte: u8) -> Option<Reading>
    ensures { result ≡ after_name shape kind byte }
{
    if byte == 91 {
        bracketed(shape, kind)
    } else if is_many(shape) {
        None
    } else {
        after_value(kind, byte)
    }
}

/// What a digit of base 16 counts.
pub(crate) fn digit_of(byte: u8) -> Option<u8>
    ensures { result ≡ digit_of byte }
{
    if byte >= 48 && byte <= 57 {
        Some(byte - 48)
    } else if byte >= 65 && byte <= 70 {
        Some(byte - 55)
    } else if byte >= 97 && byte <= 102 {
        Some(byte - 87)
    } else {
        None
    }
}
