//! Scalars that are borrowed from an input.

/// A scalar as a message holds it. A string and bytes are slices of the input.
#[derive(Clone, Copy, Debug, PartialEq)]
pub enum ScalarRef<'a> {
    /// An `int32`, `sint32` or `sfixed32`.
    I32(i32),
    /// An `int64`, `sint64` or `sfixed64`.
    I64(i64),
    /// A `uint32` or `fixed32`.
    U32(u32),
    /// A `uint64` or `fixed64`.
    U64(u64),
    Bool(bool),
    /// The bits of a `float`.
    F32(u32),
    /// The bits of a `double`.
    F64(u64),
    /// The number of an enum's value.
    Enum(i32),
    Text(&'a str),
    Bytes(&'a [u8]),
}
