//! The pool that descriptor sets are read and written by.

ghost use Rattle.std.specs.Prelude.{◌≡◌, map, IfOk, IfErr};
ghost use Rattle.pb_schema.specs.View.{field_view, file_view, message_view};
ghost use Rattle.pb_schema.specs.Rules.{IsPool};
ghost use Rattle.pb_descr_message.specs.Pool.{descriptor_file, descriptor_types};
ghost use Rattle.pb_descr_message.specs.PoolRows.{field_row_view, type_row_view};
ghost use Rattle.pb_descr_message.specs.declared.error.DescrError.TheVariants.{Memory};

use crate::error::DescrError;
use pb_schema::{Field, FileInfo, Kind, MessageId, MessageType, Pool, Shape};
use std::alloc::{AllocError, Global};

/// The set itself, the first message of the pool.
pub const SET: MessageId = MessageId(0);

/// A number, a name, a kind and a shape.
type FieldRow = (u32, &'static str, Kind, Shape);

/// A name, the message around it, and fields.
type TypeRow = (&'static str, Option<MessageId>, &'static [FieldRow]);

/// Every singular field has presence.
const ONE: Shape = Shape::Explicit;

/// Lists of numbers are not packed.
const MANY: Shape = Shape::List { packed: false };

/// Of a range: its start and its end.
const RANGE: &[FieldRow] = &[(1, "start", Kind::Int32, ONE), (2, "end", Kind::Int32, ONE)];

const SET_FIELDS: &[FieldRow] = &[(1, "file", Kind::Message(MessageId(1)), MANY)];

const FILE_FIELDS: &[FieldRow] = &[
    (1, "name", Kind::Text, ONE),
    (2, "package", Kind::Text, ONE),
    (3, "dependency", Kind::Text, MANY),
    (4, "message_type", Kind::Message(MessageId(2)), MANY),
    (5, "enum_type", Kind::Message(MessageId(7)), MANY),
    (6, "service", Kind::Message(MessageId(10)), MANY),
    (7, "extension", Kind::Message(MessageId(5)), MANY),
    (10, "public_dependency", Kind::Int32, MANY),
    (12, "syntax", Kind::Text, ONE),
];

const MESSAGE_FIELDS: &[FieldRow] = &[
    (1, "name", Kind::Text, ONE),
    (2, "field", Kind::Message(MessageId(5)), MANY),
    (3, "nested_type", Kind::Message(MessageId(2)), MANY),
    (4, "enum_type", Kind::Message(MessageId(7)), MANY),
    (5, "extension_range", Kind::Message(MessageId(4)), MANY),
    (6, "extension", Kind::Message(MessageId(5)), MANY),
    (7, "options", Kind::Message(MessageId(12)), ONE),
    (8, "oneof_decl", Kind::Message(MessageId(6)), MANY),
    (9, "reserved_range", Kind::Message(MessageId(3)), MANY),
    (10, "reserved_name", Kind::Text, MANY),
];

const FIELD_FIELDS: &[FieldRow] = &[
    (1, "name", Kind::Text, ONE),
    (2, "extendee", Kind::Text, ONE),
    (3, "number", Kind::Int32, ONE),
    (4, "label", Kind::Int32, ONE),
    (5, "type", Kind::Int32, ONE),
    (6, "type_name", Kind::Text, ONE),
    (7, "default_value", Kind::Text, ONE),
    (8, "options", Kind::Message(MessageId(13)), ONE),
    (9, "oneof_index", Kind::Int32, ONE),
    (17, "proto3_optional", Kind::Bool, ONE),
];

const ONEOF_FIELDS: &[FieldRow] = &[(1, "name", Kind::Text, ONE)];

const ENUM_FIELDS: &[FieldRow] = &[
    (1, "name", Kind::Text, ONE),
    (2, "value", Kind::Message(MessageId(9)), MANY),
    (3, "options", Kind::Message(MessageId(14)), ONE),
    (4, "reserved_range", Kind::Message(MessageId(8)), MANY),
    (5, "reserved_name", Kind::Text, MANY),
];

const VALUE_FIELDS: &[FieldRow] = &[
    (1, "name", Kind::Text, ONE),
    (2, "number", Kind::Int32, ONE),
];

const SERVICE_FIELDS: &[FieldRow] = &[
    (1, "name", Kind::Text, ONE),
    (2, "method", Kind::Message(MessageId(11)), MANY),
];

const METHOD_FIELDS: &[FieldRow] = &[
    (1, "name", Kind::Text, ONE),
    (2, "input_type", Kind::Text, ONE),
    (3, "output_type", Kind::Text, ONE),
    (5, "client_streaming", Kind::Bool, ONE),
    (6, "server_streaming", Kind::Bool, ONE),
];

const MESSAGE_OPTIONS: &[FieldRow] = &[(7, "map_entry", Kind::Bool, ONE)];

const FIELD_OPTIONS: &[FieldRow] = &[(2, "packed", Kind::Bool, ONE)];

const ENUM_OPTIONS: &[FieldRow] = &[(2, "allow_alias", Kind::Bool, ONE)];

/// A message's index is its place here.
const TYPES: &[TypeRow] = &[
    ("FileDescriptorSet", None, SET_FIELDS),
    ("FileDescriptorProto", None, FILE_FIELDS),
    ("DescriptorProto", None, MESSAGE_FIELDS),
    ("ReservedRange", Some(MessageId(2)), RANGE),
    ("ExtensionRange", Some(MessageId(2)), RANGE),
    ("FieldDescriptorProto", None, FIELD_FIELDS),
    ("OneofDescriptorProto", None, ONEOF_FIELDS),
    ("EnumDescriptorProto", None, ENUM_FIELDS),
    ("EnumReservedRange", Some(MessageId(7)), RANGE),
    ("EnumValueDescriptorProto", None, VALUE_FIELDS),
    ("ServiceDescriptorProto", None, SERVICE_FIELDS),
    ("MethodDescriptorProto", None, METHOD_FIELDS),
    ("MessageOptions", None, MESSAGE_OPTIONS),
    ("FieldOptions", None, FIELD_OPTIONS),
    ("EnumOptions", None, ENUM_OPTIONS),
];

fn field_of(alloc: Global, row: &FieldRow) -> Result<Field, AllocError>
    ensures { IfOk result (λ f. field_view f ≡ field_row_view row.now) }
{
    let (number, name, kind, shape) = *row;
    let name = String::from_str(alloc, name)?;
    Ok(Field {
        name,
        number,
        kind,
        shape,
    })
}

fn fields_of(alloc: Global, rows: &[FieldRow]) -> Result<Vec<Field>, AllocError>
    ensures { IfOk result (λ v. map field_view v.items ≡ map field_row_view rows.now) }
{
    let mut fields = Vec::with_capacity(alloc, rows.len())?;
    for row in rows {
        let field = field_of(alloc, row)?;
        fields.push(field)?;
    }
    Ok(fields)
}

fn type_of(alloc: Global, row: &TypeRow) -> Result<MessageType, AllocError>
    ensures { IfOk result (λ t. message_view t ≡ type_row_view row.now) }
{
    let (name, parent, rows) = *row;
    let name = String::from_str(alloc, name)?;
    let fields = fields_of(alloc, rows)?;
    Ok(MessageType {
        name,
        file: 0,
        parent,
        fields,
        oneofs: Vec::new(alloc),
    })
}

fn types_of(alloc: Global, rows: &[TypeRow]) -> Result<Vec<MessageType>, AllocError>
    ensures { IfOk result (λ v. map message_view v.items ≡ map type_row_view rows.now) }
{
    let mut types = Vec::with_capacity(alloc, rows.len())?;
    for row in rows {
        let made = type_of(alloc, row)?;
        types.push(made)?;
    }
    Ok(types)
}

fn descriptor_file(alloc: Global) -> Result<FileInfo, AllocError>
    ensures { IfOk result (λ f. file_view f ≡ descriptor_file) }
{
    let name = String::from_str(alloc, "google/protobuf/descriptor.proto")?;
    let package = String::from_str(alloc, "google.protobuf")?;
    Ok(FileInfo {
        name,
        package,
        imports: Vec::new(alloc),
        proto2: false,
    })
}

fn descriptor_messages(alloc: Global) -> Result<Vec<MessageType>, AllocError>
    ensures { IfOk result (λ v. map message_view v.items ≡ descriptor_types.messages) }
{
    types_of(alloc, TYPES)
}

/// The pool that descriptor sets are read and written by: the part of descriptor.proto that declarations are made of, as one file of 15
/// messages. What is not in it (options but three, positions in sources, `json_name`, marks of weak imports) is unknown to the pool.
///
/// A label and a type are numbers here. The set itself is `google.protobuf.FileDescriptorSet`, the first message. Refused only when
/// memory runs out.
pub fn descriptor_pool(alloc: Global) -> Result<Pool, DescrError>
    ensures types { IfOk result (λ p. p ≡ descriptor_types) }
    ensures rules { IfOk result (λ p. IsPool p) }
    ensures memory { IfErr result (λ e. e ≡ Memory) }
{
    let file = descriptor_file(alloc)?;
    let files = vec![in alloc; file]?;
    let messages = descriptor_messages(alloc)?;
    let pool = Pool::from_known_parts(alloc, files, messages, Vec::new(alloc))?;
    Ok(pool)
}
