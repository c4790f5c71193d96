//! Which grammar sources are read by, for the parser of `pb_source`.

/// The syntax of a file.
#[derive(Clone, Copy, PartialEq, Eq)]
pub enum Syntax {
    Proto2,
    Proto3,
}

/// Which statements are taken. The grammars share all lines but those that say what each has.
#[derive(Clone, Copy, PartialEq, Eq)]
pub enum Grammar {
    /// Those of proto3 without what declares no message, enum or service: no part of an option's name in parentheses, no floating constant, no
    /// constant in braces, no extensions.
    Strict,
    /// All of a syntax; what declares nothing is read and dropped.
    Lenient(Syntax),
}
