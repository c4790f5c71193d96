//! Pools of the types of rows.

ghost use Rattle.std.specs.Prelude.{◌≡◌, map, string_bytes, IfOk, IfErr};
ghost use Rattle.pb_schema.specs.Rules.{IsPool};
ghost use Rattle.pb_schema.specs.View.{field_view, message_view, enum_view, file_view};
ghost use Rattle.pb_schema.specs.declared.error.PoolError.TheVariants.{BadParts};
ghost use Rattle.pb_test_types.specs.Types.{field_in, message_in, enum_in, file_in, names_in, values_in, types_in};

use pb_schema::{
    EnumId, EnumType, Field, FileInfo, Kind, MessageId, MessageType, Pool, PoolError, Shape,
};
use std::alloc::{AllocError, Global};

/// A file by its name, its package, and whether it is of proto2.
pub type FileRow<'a> = (&'a str, &'a str, bool);

/// A field by its name, number, kind and shape.
pub type FieldRow = (&'static str, u32, Kind, Shape);

/// A message type by its name, its file, what it is declared in, its fields and the names of its oneofs.
pub type TypeRow = (
    &'static str,
    usize,
    Option<MessageId>,
    &'static [FieldRow],
    &'static [&'static str],
);

/// An enum by its name, its file and its values.
pub type EnumRow = (&'static str, usize, &'static [(&'static str, i32)]);

pub const PACKED: Shape = Shape::List { packed: true };

pub const UNPACKED: Shape = Shape::List { packed: false };

const T: Kind = Kind::Message(MessageId(0));

/// message T { int32 a = 1; string b = 2; T c = 3; double d = 4; repeated int32 e = 6; oneof o { uint32 x = 7; T y = 8; }
/// map<string, int32> m = 9; optional bool p = 10; sint32 s = 11; map<uint32, T> n = 12; }, the first type of its pool.
pub const FIELDS_OF_T: &[FieldRow] = &[
    ("a", 1, Kind::Int32, Shape::Implicit),
    ("b", 2, Kind::Text, Shape::Implicit),
    ("c", 3, T, Shape::Explicit),
    ("d", 4, Kind::Double, Shape::Implicit),
    ("e", 6, Kind::Int32, PACKED),
    ("x", 7, Kind::Uint32, Shape::OneofMember(0)),
    ("y", 8, T, Shape::OneofMember(0)),
    ("m", 9, Kind::Int32, Shape::Map { key: Kind::Text }),
    ("p", 10, Kind::Bool, Shape::Explicit),
    ("s", 11, Kind::Sint32, Shape::Implicit),
    ("n", 12, T, Shape::Map { key: Kind::Uint32 }),
];

/// message F { int32 a = 1; string b = 2; double d = 4; repeated int32 e = 6; optional bool p = 10; sint32 s = 11;
/// repeated string u = 13; repeated sint32 v = 14 [packed = false]; bytes w = 15; float g = 16; E k = 17;
/// repeated fixed32 h = 18; }, where E is the first enum of its pool.
pub const FIELDS_OF_F: &[FieldRow] = &[
    ("a", 1, Kind::Int32, Shape::Implicit),
    ("b", 2, Kind::Text, Shape::Implicit),
    ("d", 4, Kind::Double, Shape::Implicit),
    ("e", 6, Kind::Int32, PACKED),
    ("p", 10, Kind::Bool, Shape::Explicit),
    ("s", 11, Kind::Sint32, Shape::Implicit),
    ("u", 13, Kind::Text, UNPACKED),
    ("v", 14, Kind::Sint32, UNPACKED),
    ("w", 15, Kind::Bytes, Shape::Implicit),
    ("g", 16, Kind::Float, Shape::Implicit),
    ("k", 17, Kind::Enum(EnumId(0)), Shape::Implicit),
    ("h", 18, Kind::Fixed32, PACKED),
];

/// The pool of these files, types and enums, where they meet the rules of a pool.
pub fn pool_of(
    alloc: Global,
    files: &[FileRow<'_>],
    types: &[TypeRow],
    enums: &[EnumRow],
) -> Result<Pool, PoolError>
    ensures made { IfOk result (λ p. p ≡ types_in files.now types.now enums.now) }
    ensures rules { IfOk result (λ p. IsPool p) }
    ensures refused { IfErr result (λ e. e ≡ BadParts
        → ¬ IsPool (types_in files.now types.now enums.now)) }
{
    let files = files_of(alloc, files)?;
    let types = types_of(alloc, types)?;
    let enums = enums_of(alloc, enums)?;
    Pool::from_parts(alloc, files, types, enums)
}

fn file_of(alloc: Global, row: &FileRow<'_>) -> Result<FileInfo, AllocError>
    ensures { IfOk result (λ f. file_view f ≡ file_in row.now) }
{
    let (name, package, proto2) = *row;
    Ok(FileInfo {
        name: String::from_str(alloc, name)?,
        package: String::from_str(alloc, package)?,
        imports: Vec::new(alloc),
        proto2,
    })
}

fn files_of(alloc: Global, rows: &[FileRow<'_>]) -> Result<Vec<FileInfo>, AllocError>
    ensures { IfOk result (λ fs. map file_view fs.items ≡ map file_in rows.now) }
{
    let mut files = Vec::new(alloc);
    for row in rows {
        files.push(file_of(alloc, row)?)?;
    }
    Ok(files)
}

fn field_of(alloc: Global, row: &FieldRow) -> Result<Field, AllocError>
    ensures { IfOk result (λ f. field_view f ≡ field_in row.now) }
{
    let (name, number, kind, shape) = *row;
    Ok(Field {
        name: String::from_str(alloc, name)?,
        number,
        kind,
        shape,
    })
}

fn fields_of(alloc: Global, rows: &[FieldRow]) -> Result<Vec<Field>, AllocError>
    ensures { IfOk result (λ fs. map field_view fs.items ≡ map field_in rows.now) }
{
    let mut fields = Vec::new(alloc);
    for row in rows {
        fields.push(field_of(alloc, row)?)?;
    }
    Ok(fields)
}

fn names_of(alloc: Global, rows: &[&str]) -> Result<Vec<String>, AllocError>
    ensures { IfOk result (λ ns. map string_bytes ns.items ≡ names_in rows.now) }
{
    let mut names = Vec::new(alloc);
    for name in rows {
        names.push(String::from_str(alloc, name)?)?;
    }
    Ok(names)
}

fn type_of(alloc: Global, row: &TypeRow) -> Result<MessageType, AllocError>
    ensures { IfOk result (λ t. message_view t ≡ message_in row.now) }
{
    let (name, file, parent, fields, oneofs) = *row;
    Ok(MessageType {
        name: String::from_str(alloc, name)?,
        file,
        parent,
        fields: fields_of(alloc, fields)?,
        oneofs: names_of(alloc, oneofs)?,
    })
}

fn types_of(alloc: Global, rows: &[TypeRow]) -> Result<Vec<MessageType>, AllocError>
    ensures { IfOk result (λ ts. map message_view ts.items ≡ map message_in rows.now) }
{
    let mut types = Vec::new(alloc);
    for row in rows {
        types.push(type_of(alloc, row)?)?;
    }
    Ok(types)
}

fn values_of(alloc: Global, rows: &[(&str, i32)]) -> Result<Vec<(String, i32)>, AllocError>
    ensures { IfOk result (λ vs. map (λ v. (string_bytes v.0, v.1)) vs.items ≡ values_in rows.now) }
{
    let mut values = Vec::new(alloc);
    for (name, number) in rows {
        values.push((String::from_str(alloc, name)?, *number))?;
    }
    Ok(values)
}

fn enum_of(alloc: Global, row: &EnumRow) -> Result<EnumType, AllocError>
    ensures { IfOk result (λ t. enum_view t ≡ enum_in row.now) }
{
    let (name, file, values) = *row;
    Ok(EnumType {
        name: String::from_str(alloc, name)?,
        file,
        parent: None,
        values: values_of(alloc, values)?,
    })
}

fn enums_of(alloc: Global, rows: &[EnumRow]) -> Result<Vec<EnumType>, AllocError>
    ensures { IfOk result (λ ts. map enum_view ts.items ≡ map enum_in rows.now) }
{
    let mut enums = Vec::new(alloc);
    for row in rows {
        enums.push(enum_of(alloc, row)?)?;
    }
    Ok(enums)
}
