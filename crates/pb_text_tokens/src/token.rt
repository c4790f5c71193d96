//! Tokens.

/// What a token is.
#[derive(Clone, Copy, Debug, PartialEq, Eq)]
pub enum TokenKind {
    /// A letter or `_`, then letters, digits and `_`.
    Word,
    /// An integer in decimal digits.
    Decimal,
    /// An integer in octal digits after a `0`.
    Octal,
    /// An integer in hexadecimal digits after `0x`.
    Hexadecimal,
    /// A number with a point, an exponent or an `f`.
    Floating,
    /// A string between two quotes on one line.
    Quoted,
    /// A punctuation mark: one of `{}<>[]:;,-./`.
    Mark,
}

/// A token: what it is, the byte of the text that it begins at, and its bytes.
#[derive(Clone, Copy, Debug, PartialEq, Eq)]
pub struct Token<'a> {
    pub kind: TokenKind,
    pub at: usize,
    pub text: &'a [u8],
}
