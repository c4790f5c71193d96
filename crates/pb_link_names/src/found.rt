//! What type names come to.

/// What looking up a name comes to.
#[derive(Clone, Copy, PartialEq, Eq, Debug)]
pub enum Found {
    /// The type at a place.
    Type(usize),
    NotFound,
    NotVisible,
    NotAType,
}

/// What the type names of a declaration come to: a field may have one, and a method has two.
#[derive(Clone, Copy, PartialEq, Eq, Debug)]
pub enum TypeNames {
    None,
    One(Found),
    /// Input and output.
    Two(Found, Found),
}
