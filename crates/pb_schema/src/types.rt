//! What a pool is made of (descriptor.proto; language specification, proto3).

/// The index of a message type in its pool.
#[derive(Clone, Copy, PartialEq, Eq, Debug)]
pub struct MessageId(pub usize);

/// The index of an enum in its pool.
#[derive(Clone, Copy, PartialEq, Eq, Debug)]
pub struct EnumId(pub usize);

/// What a field's values are.
#[derive(Clone, Copy, PartialEq, Eq, Debug)]
pub enum Kind {
    Double,
    Float,
    Int64,
    Uint64,
    Int32,
    Fixed64,
    Fixed32,
    Bool,
    /// A `string`, in UTF-8.
    Text,
    Bytes,
    Uint32,
    Sfixed32,
    Sfixed64,
    Sint32,
    Sint64,
    /// An open enum: each number of 32 bits is a value.
    Enum(EnumId),
    Message(MessageId),
    /// A message that is written as a group.
    Group(MessageId),
    /// An enum of a proto2 file: the numbers that it declares are its values.
    ClosedEnum(EnumId),
}

/// How many values a field has, and when it counts as set.
#[derive(Clone, Copy, PartialEq, Eq, Debug)]
pub enum Shape {
    /// One value, which counts as set where it is not the kind's default.
    Implicit,
    /// One value, which counts as set where it is there.
    Explicit,
    /// One value, of the fields of the oneof with this index at most one.
    OneofMember(u32),
    /// Any number of values in order.
    List {
        /// All values are written in one record.
        packed: bool,
    },
    /// Values under keys. The field's kind is that of the values.
    Map {
        key: Kind,
    },
}

/// A field of a message type. Names are simple: one word.
#[derive(PartialEq, Eq, Debug, Drop)]
pub struct Field {
    pub name: String,
    pub number: u32,
    pub kind: Kind,
    pub shape: Shape,
}

/// A message type. The entry messages of map fields are no types.
#[derive(PartialEq, Eq, Debug, Drop)]
pub struct MessageType {
    pub name: String,
    /// The index of its file in the pool.
    pub file: usize,
    /// The message that it is declared in.
    pub parent: Option<MessageId>,
    pub fields: Vec<Field>,
    /// The names of its oneofs.
    pub oneofs: Vec<String>,
}

/// An enum with the names and numbers of its values.
#[derive(PartialEq, Eq, Debug, Drop)]
pub struct EnumType {
    pub name: String,
    /// The index of its file in the pool.
    pub file: usize,
    /// The message that it is declared in.
    pub parent: Option<MessageId>,
    pub values: Vec<(String, i32)>,
}

/// A file of declarations.
#[derive(PartialEq, Eq, Debug, Drop)]
pub struct FileInfo {
    pub name: String,
    /// Words joined by dots, or empty.
    pub package: String,
    /// The indexes of the imported files in the pool.
    pub imports: Vec<usize>,
    /// The file is of the syntax proto2, else of proto3.
    pub proto2: bool,
}
