//! What messages hold, as values.

use pb_wire::Unknown;
use std::collections::BTreeMap;

/// A map's key. Keys of one map are of one variant, in this order: numbers by value, false before true, strings by
/// their bytes.
#[derive(Debug, PartialEq, Eq, PartialOrd, Ord, Drop)]
pub enum MapKey {
    I32(i32),
    I64(i64),
    U32(u32),
    U64(u64),
    Bool(bool),
    Text(String),
}

/// A value that a field can hold once.
#[cycle(value)]
#[derive(Debug, PartialEq, Drop)]
pub enum Value {
    /// An `int32`, `sint32` or `sfixed32`.
    I32(i32),
    /// An `int64`, `sint64` or `sfixed64`.
    I64(i64),
    /// A `uint32` or `fixed32`.
    U32(u32),
    /// A `uint64` or `fixed64`.
    U64(u64),
    Bool(bool),
    /// The bits of a `float`.
    F32(u32),
    /// The bits of a `double`.
    F64(u64),
    /// The number of an enum's value.
    Enum(i32),
    Text(String),
    Bytes(Vec<u8>),
    Message(Body),
}

/// What a field holds.
#[cycle(value)]
#[derive(Debug, PartialEq, Drop)]
pub enum Content {
    One(Value),
    List(Vec<Value>),
    Map(BTreeMap<MapKey, Value>),
}

/// What a message holds: contents by field number, and the unknown records, in order.
#[cycle(value)]
#[derive(Debug, PartialEq, Drop)]
pub struct Body {
    pub fields: BTreeMap<u32, Content>,
    pub unknown: Vec<(u32, Unknown)>,
}
