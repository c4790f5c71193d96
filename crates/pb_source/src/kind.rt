//! Kinds of statements. The first symbol of a statement decides.

/// What begins in a file, after its syntax.
#[derive(Clone, Copy, PartialEq, Eq)]
pub(crate) enum FileKind {
    /// `;` alone.
    Empty,
    Option,
    Import,
    Package,
    Message,
    Enum,
    Service,
    Extend,
}

/// What begins in a message.
#[derive(Clone, Copy, PartialEq, Eq)]
pub(crate) enum MessageKind {
    Empty,
    Option,
    Message,
    Enum,
    Oneof,
    Reserved,
    Repeated,
    Optional,
    Required,
    /// The word `map`: a map field, or a field whose type is named so.
    Map,
    /// A field without a label.
    Field,
    Extend,
    Extensions,
}

/// What begins in a block of `extend`.
#[derive(Clone, Copy, PartialEq, Eq)]
pub(crate) enum ExtendKind {
    Empty,
    Repeated,
    Optional,
    Required,
    /// A field without a label.
    Field,
}

/// What begins in an enum.
#[derive(Clone, Copy, PartialEq, Eq)]
pub(crate) enum EnumKind {
    Empty,
    Option,
    Reserved,
    Value,
}

/// What begins in a oneof.
#[derive(Clone, Copy, PartialEq, Eq)]
pub(crate) enum OneofKind {
    Empty,
    Option,
    Field,
}

/// What begins in a service.
#[derive(Clone, Copy, PartialEq, Eq)]
pub(crate) enum ServiceKind {
    Empty,
    Option,
    Method,
}

/// What begins in a method's body.
#[derive(Clone, Copy, PartialEq, Eq)]
pub(crate) enum MethodKind {
    Empty,
    Option,
}

/// What comes before a field's type.
#[derive(Clone, Copy, PartialEq, Eq)]
pub(crate) enum Label {
    Unlabelled,
    Repeated,
    Optional,
}
