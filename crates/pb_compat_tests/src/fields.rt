//! Pools of one message with fields that words describe.

use pb_compat::{ComparedTypes, compare};
use pb_schema::{EnumId, EnumType, Field, FileInfo, Kind, MessageId, MessageType, Pool, Shape};
use std::alloc::Global;
use std::test::Fail;

/// The first word of a line, and the rest after the space.
pub(crate) fn word(line: &str) -> (&str, &str) {
    line.split_once(' ').unwrap_or((line, ""))
}

/// The kind that a word names. Messages and groups are of the type N, and enums of E.
fn kind_of(word: &str) -> Result<Kind, Fail> {
    Ok(match word {
        "double" => Kind::Double,
        "float" => Kind::Float,
        "int64" => Kind::Int64,
        "uint64" => Kind::Uint64,
        "int32" => Kind::Int32,
        "fixed64" => Kind::Fixed64,
        "fixed32" => Kind::Fixed32,
        "bool" => Kind::Bool,
        "string" => Kind::Text,
        "bytes" => Kind::Bytes,
        "uint32" => Kind::Uint32,
        "sfixed32" => Kind::Sfixed32,
        "sfixed64" => Kind::Sfixed64,
        "sint32" => Kind::Sint32,
        "sint64" => Kind::Sint64,
        "enum" => Kind::Enum(EnumId(0)),
        "message" => Kind::Message(MessageId(1)),
        "group" => Kind::Group(MessageId(1)),
        "closed" => Kind::ClosedEnum(EnumId(0)),
        _ => return Err("no kind".into()),
    })
}

/// The shape that a word names: `o` and `o1` are members of the first and the second oneof, and `m` is a map with int32 keys.
fn shape_of(word: &str) -> Result<Shape, Fail> {
    Ok(match word {
        "i" => Shape::Implicit,
        "e" => Shape::Explicit,
        "o" => Shape::OneofMember(0),
        "o1" => Shape::OneofMember(1),
        "u" => Shape::List { packed: false },
        "p" => Shape::List { packed: true },
        "m" => Shape::Map { key: Kind::Int32 },
        "mbool" => Shape::Map { key: Kind::Bool },
        "mint64" => Shape::Map { key: Kind::Int64 },
        "mstring" => Shape::Map { key: Kind::Text },
        _ => return Err("no shape".into()),
    })
}

/// The field of a name, a number, a kind and a shape.
fn field_of(alloc: Global, line: &str) -> Result<Field, Fail> {
    let (name, rest) = word(line);
    let (number, rest) = word(rest);
    let (kind, shape) = word(rest);
    Ok(Field {
        name: String::from_str(alloc, name)?,
        number: number.parse::<u32>()?,
        kind: kind_of(kind)?,
        shape: shape_of(shape)?,
    })
}

fn fields_of(alloc: Global, lines: &str) -> Result<Vec<Field>, Fail> {
    let mut fields = Vec::new(alloc);
    for line in lines.split(';') {
        if !line.is_empty() {
            fields.push(field_of(alloc, line.trim())?)?;
        }
    }
    Ok(fields)
}

/// One more than the greatest index of a oneof that the fields are members of.
fn oneofs_of(fields: &[Field]) -> u32 {
    let mut count = 0;
    for field in fields {
        if let Shape::OneofMember(oneof) = field.shape {
            count = count.max(oneof.saturating_add(1));
        }
    }
    count
}

fn names(alloc: Global, count: u32) -> Result<Vec<String>, Fail> {
    let mut names = Vec::new(alloc);
    for index in 0..count {
        names.push(format!(in alloc; "oneof{index}")?)?;
    }
    Ok(names)
}

pub(crate) fn message_of(
    alloc: Global,
    name: &str,
    fields: Vec<Field>,
) -> Result<MessageType, Fail> {
    let oneofs = names(alloc, oneofs_of(&fields))?;
    Ok(MessageType {
        name: String::from_str(alloc, name)?,
        file: 0,
        parent: None,
        fields,
        oneofs,
    })
}

/// The enum E with a value for each number between commas.
fn enum_of(alloc: Global, numbers: &str) -> Result<EnumType, Fail> {
    let mut values = Vec::new(alloc);
    for number in numbers.split(',') {
        let number = number.parse::<i32>()?;
        let name = format!(in alloc; "V{}", values.len())?;
        values.push((name, number))?;
    }
    Ok(EnumType {
        name: String::from_str(alloc, "E")?,
        file: 0,
        parent: None,
        values,
    })
}

pub(crate) fn file_of(alloc: Global, proto2: bool) -> Result<FileInfo, Fail> {
    Ok(FileInfo {
        name: String::from_str(alloc, "m.proto")?,
        package: String::from_str(alloc, "p")?,
        imports: Vec::new(alloc),
        proto2,
    })
}

/// The pool of `message M` with fields, `message N { int32 x = 1; }` and the enum E with values of these numbers. Its file is of proto2 if a
/// field is of a closed enum or a group.
pub(crate) fn pool_of(alloc: Global, fields: &str, numbers: &str) -> Result<Pool, Fail> {
    let proto2 = fields.contains(" closed ") || fields.contains(" group ");
    let x = if proto2 { "x 1 int32 e" } else { "x 1 int32 i" };
    let m = message_of(alloc, "M", fields_of(alloc, fields)?)?;
    let n = message_of(alloc, "N", fields_of(alloc, x)?)?;
    let files = vec![in alloc; file_of(alloc, proto2)?]?;
    let messages = vec![in alloc; m, n]?;
    let enums = vec![in alloc; enum_of(alloc, numbers)?]?;
    Ok(Pool::from_parts(alloc, files, messages, enums)?)
}

/// The comparison of the first messages of two pools.
pub(crate) fn compare_first(
    alloc: Global,
    old: &Pool,
    new: &Pool,
) -> Result<Vec<ComparedTypes>, Fail> {
    if old.messages().is_empty() || new.messages().is_empty() {
        return Err("no message".into());
    }
    Ok(compare(alloc, old, MessageId(0), new, MessageId(0))?)
}
