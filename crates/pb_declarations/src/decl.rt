//! What files declare (descriptor.proto). Numbers and indexes are kept as they are written: whether they mean anything is judged where files
//! are linked.

/// The type of a field, by its number in descriptor.proto (`FieldDescriptorProto.Type`).
#[derive(Clone, Copy, PartialEq, Eq, Debug)]
pub enum TypeCode {
    Double,
    Float,
    Int64,
    Uint64,
    Int32,
    Fixed64,
    Fixed32,
    Bool,
    /// `string`.
    Text,
    /// A group; only files of proto2 have one.
    Group,
    Message,
    Bytes,
    Uint32,
    Enum,
    Sfixed32,
    Sfixed64,
    Sint32,
    Sint64,
}

impl TypeCode {
    ghost use Rattle.std.specs.Prelude.{◌≡◌, pos};
    ghost use Rattle.pb_declarations.specs.TypeNumbers.{number_of_type};
    ghost use Rattle.pb_declarations.specs.TypeNumbers.{type_of_number};

    /// The type's number, from 1 to 18.
    pub fn number(self) -> i32
        ensures { result ≡ pos (number_of_type self) }
    {
        match self {
            TypeCode::Double => 1,
            TypeCode::Float => 2,
            TypeCode::Int64 => 3,
            TypeCode::Uint64 => 4,
            TypeCode::Int32 => 5,
            TypeCode::Fixed64 => 6,
            TypeCode::Fixed32 => 7,
            TypeCode::Bool => 8,
            TypeCode::Text => 9,
            TypeCode::Group => 10,
            TypeCode::Message => 11,
            TypeCode::Bytes => 12,
            TypeCode::Uint32 => 13,
            TypeCode::Enum => 14,
            TypeCode::Sfixed32 => 15,
            TypeCode::Sfixed64 => 16,
            TypeCode::Sint32 => 17,
            TypeCode::Sint64 => 18,
        }
    }

    /// The type of a number, which is none outside 1 to 18.
    pub fn from_number(number: i32) -> Option<TypeCode>
        ensures { result ≡ type_of_number number }
    {
        Some(match number {
            1 => TypeCode::Double,
            2 => TypeCode::Float,
            3 => TypeCode::Int64,
            4 => TypeCode::Uint64,
            5 => TypeCode::Int32,
            6 => TypeCode::Fixed64,
            7 => TypeCode::Fixed32,
            8 => TypeCode::Bool,
            9 => TypeCode::Text,
            10 => TypeCode::Group,
            11 => TypeCode::Message,
            12 => TypeCode::Bytes,
            13 => TypeCode::Uint32,
            14 => TypeCode::Enum,
            15 => TypeCode::Sfixed32,
            16 => TypeCode::Sfixed64,
            17 => TypeCode::Sint32,
            18 => TypeCode::Sint64,
            _ => return None,
        })
    }
}

/// A field of a message (`FieldDescriptorProto`).
#[derive(PartialEq, Eq, Debug, Drop)]
pub struct FieldDecl {
    pub name: String,
    pub number: i32,
    /// Whether the label is `repeated`.
    pub repeated: bool,
    /// The type's number, where one is given.
    pub ty: Option<TypeCode>,
    /// The name of a message or an enum as it is written, where one is given.
    pub type_name: Option<String>,
    /// The option `packed`, where it is given.
    pub packed: Option<bool>,
    /// The index of its oneof in the message.
    pub oneof: Option<i32>,
    /// Whether the field is a singular one with presence, which is in a oneof of its own.
    pub proto3_optional: bool,
}

/// An enum (`EnumDescriptorProto`).
#[derive(PartialEq, Eq, Debug, Drop)]
pub struct EnumDecl {
    pub name: String,
    /// Names and numbers.
    pub values: Vec<(String, i32)>,
    /// Whether values may share a number.
    pub allow_alias: bool,
    /// Starts and ends; an end is in its range.
    pub reserved: Vec<(i32, i32)>,
    pub reserved_names: Vec<String>,
}

/// A message, with the messages and enums that are declared in it (`DescriptorProto`).
#[derive(PartialEq, Eq, Debug, Drop)]
pub struct MessageDecl {
    pub name: String,
    pub fields: Vec<FieldDecl>,
    pub messages: Vec<MessageDecl>,
    pub enums: Vec<EnumDecl>,
    /// The names of its oneofs.
    pub oneofs: Vec<String>,
    /// Starts and ends; an end is after its range.
    pub reserved: Vec<(i32, i32)>,
    pub reserved_names: Vec<String>,
    /// Whether it is the entry message of a map field.
    pub map_entry: bool,
}

/// A method of a service (`MethodDescriptorProto`).
#[derive(PartialEq, Eq, Debug, Drop)]
pub struct MethodDecl {
    pub name: String,
    /// The name of its input type as it is written.
    pub input: String,
    /// The name of its output type as it is written.
    pub output: String,
    pub client_stream: bool,
    pub server_stream: bool,
}

/// A service (`ServiceDescriptorProto`).
#[derive(PartialEq, Eq, Debug, Drop)]
pub struct ServiceDecl {
    pub name: String,
    pub methods: Vec<MethodDecl>,
}

/// A file of proto2 or proto3 (`FileDescriptorProto`).
#[derive(PartialEq, Eq, Debug, Drop)]
pub struct FileDecl {
    pub name: String,
    /// Empty where the file has no package.
    pub package: String,
    /// The names of the imported files.
    pub imports: Vec<String>,
    /// The indexes of the public imports.
    pub public: Vec<i32>,
    pub messages: Vec<MessageDecl>,
    pub enums: Vec<EnumDecl>,
    pub services: Vec<ServiceDecl>,
    /// The syntax is `proto2`, else `proto3`.
    pub proto2: bool,
}
