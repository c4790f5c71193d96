//! Parts of a pool, read from rows: `file NAME PACKAGE [IMPORT]`, or `proto2` for a file of that syntax, `message NAME FILE PARENT` and of that
//! message `oneof NAME` and `field NAME NUMBER KIND SHAPE`, `enum NAME FILE PARENT` and of that enum `value NAME NUMBER`. A `-` means none.

use pb_schema::{
    EnumId, EnumType, Field, FileInfo, Kind, MessageId, MessageType, Pool, PoolError, Shape,
};
use std::alloc::Global;
use std::test::Fail;

/// The words of a row, an empty one where there is none.
#[derive(Clone, Copy)]
struct Words<'a> {
    what: &'a str,
    first: &'a str,
    second: &'a str,
    third: &'a str,
    fourth: &'a str,
}

fn words_of(row: &str) -> Words<'_> {
    let mut words = row.split_whitespace();
    let what = words.next().unwrap_or("");
    let first = words.next().unwrap_or("");
    let second = words.next().unwrap_or("");
    let third = words.next().unwrap_or("");
    let fourth = words.next().unwrap_or("");
    Words {
        what,
        first,
        second,
        third,
        fourth,
    }
}

fn name_of(alloc: Global, word: &str) -> Result<String, Fail> {
    Ok(String::from_str(alloc, if word == "-" { "" } else { word })?)
}

/// The kind of the message or enum at an index.
fn kind_at(form: &str, index: usize) -> Result<Kind, Fail> {
    Ok(match form {
        "message" => Kind::Message(MessageId(index)),
        "group" => Kind::Group(MessageId(index)),
        "enum" => Kind::Enum(EnumId(index)),
        "closed" => Kind::ClosedEnum(EnumId(index)),
        _ => return Err(Fail::new("no form of kind")),
    })
}

/// A scalar kind by its name in a schema, or `message:INDEX`, `group:INDEX`, `enum:INDEX` or `closed:INDEX`.
fn kind_of(word: &str) -> Result<Kind, Fail> {
    if let Some((form, index)) = word.split_once(':') {
        return kind_at(form, index.parse::<usize>()?);
    }
    Ok(match word {
        "double" => Kind::Double,
        "float" => Kind::Float,
        "int64" => Kind::Int64,
        "uint64" => Kind::Uint64,
        "int32" => Kind::Int32,
        "fixed64" => Kind::Fixed64,
        "fixed32" => Kind::Fixed32,
        "bool" => Kind::Bool,
        "string" => Kind::Text,
        "bytes" => Kind::Bytes,
        "uint32" => Kind::Uint32,
        "sfixed32" => Kind::Sfixed32,
        "sfixed64" => Kind::Sfixed64,
        "sint32" => Kind::Sint32,
        "sint64" => Kind::Sint64,
        _ => return Err(Fail::new("no kind")),
    })
}

/// `implicit`, `explicit`, `packed`, `list`, `oneof:INDEX` or `map:KEY`.
fn shape_of(word: &str) -> Result<Shape, Fail> {
    if let Some((form, rest)) = word.split_once(':') {
        return Ok(if form == "oneof" {
            Shape::OneofMember(rest.parse::<u32>()?)
        } else {
            Shape::Map {
                key: kind_of(rest)?,
            }
        });
    }
    Ok(match word {
        "implicit" => Shape::Implicit,
        "explicit" => Shape::Explicit,
        "packed" => Shape::List { packed: true },
        "list" => Shape::List { packed: false },
        _ => return Err(Fail::new("no shape")),
    })
}

fn parent_of(word: &str) -> Result<Option<MessageId>, Fail> {
    if word == "-" {
        return Ok(None);
    }
    Ok(Some(MessageId(word.parse::<usize>()?)))
}

#[derive(Drop)]
struct Parts {
    files: Vec<FileInfo>,
    messages: Vec<MessageType>,
    enums: Vec<EnumType>,
}

fn add_file(alloc: Global, parts: &mut Parts, words: Words<'_>) -> Result<(), Fail> {
    let mut imports = Vec::new(alloc);
    if !words.third.is_empty() {
        imports.push(words.third.parse::<usize>()?)?;
    }
    parts.files.push(FileInfo {
        name: name_of(alloc, words.first)?,
        package: name_of(alloc, words.second)?,
        imports,
        proto2: words.what == "proto2",
    })?;
    Ok(())
}

fn add_message(alloc: Global, parts: &mut Parts, words: Words<'_>) -> Result<(), Fail> {
    parts.messages.push(MessageType {
        name: name_of(alloc, words.first)?,
        file: words.second.parse::<usize>()?,
        parent: parent_of(words.third)?,
        fields: Vec::new(alloc),
        oneofs: Vec::new(alloc),
    })?;
    Ok(())
}

fn field_of(alloc: Global, words: Words<'_>) -> Result<Field, Fail> {
    Ok(Field {
        name: name_of(alloc, words.first)?,
        number: words.second.parse::<u32>()?,
        kind: kind_of(words.third)?,
        shape: shape_of(words.fourth)?,
    })
}

fn add_field(alloc: Global, parts: &mut Parts, words: Words<'_>) -> Result<(), Fail> {
    let field = field_of(alloc, words)?;
    let message = parts.messages.last_mut().ok_or("no message")?;
    message.fields.push(field)?;
    Ok(())
}

fn add_oneof(alloc: Global, parts: &mut Parts, words: Words<'_>) -> Result<(), Fail> {
    let name = name_of(alloc, words.first)?;
    let message = parts.messages.last_mut().ok_or("no message")?;
    message.oneofs.push(name)?;
    Ok(())
}

fn add_enum(alloc: Global, parts: &mut Parts, words: Words<'_>) -> Result<(), Fail> {
    parts.enums.push(EnumType {
        name: name_of(alloc, words.first)?,
        file: words.second.parse::<usize>()?,
        parent: parent_of(words.third)?,
        values: Vec::new(alloc),
    })?;
    Ok(())
}

fn add_value(alloc: Global, parts: &mut Parts, words: Words<'_>) -> Result<(), Fail> {
    let name = name_of(alloc, words.first)?;
    let number = words.second.parse::<i32>()?;
    let entry = parts.enums.last_mut().ok_or("no enum")?;
    entry.values.push((name, number))?;
    Ok(())
}

fn add(alloc: Global, parts: &mut Parts, row: &str) -> Result<(), Fail> {
    let words = words_of(row);
    match words.what {
        "" => Ok(()),
        "file" | "proto2" => add_file(alloc, parts, words),
        "message" => add_message(alloc, parts, words),
        "field" => add_field(alloc, parts, words),
        "oneof" => add_oneof(alloc, parts, words),
        "enum" => add_enum(alloc, parts, words),
        "value" => add_value(alloc, parts, words),
        _ => Err(Fail::new("no part")),
    }
}

/// The pool of these rows with another row in place of the one at an index. None where they break a rule.
pub(crate) fn changed_pool(
    alloc: Global,
    rows: &str,
    at: usize,
    instead: &str,
) -> Result<Option<Pool>, Fail> {
    let mut parts = Parts {
        files: Vec::new(alloc),
        messages: Vec::new(alloc),
        enums: Vec::new(alloc),
    };
    for (index, row) in rows.lines().enumerate() {
        add(alloc, &mut parts, if index == at { instead } else { row })?;
    }
    match Pool::from_parts(alloc, parts.files, parts.messages, parts.enums) {
        Ok(pool) => Ok(Some(pool)),
        Err(PoolError::BadParts) => Ok(None),
        Err(PoolError::Memory) => Err(Fail::new("no memory")),
    }
}

/// The pool of these rows.
pub(crate) fn pool_of(alloc: Global, rows: &str) -> Result<Pool, Fail> {
    let pool = changed_pool(alloc, rows, usize::MAX, "")?;
    Ok(pool.ok_or("parts that break a rule")?)
}

fn is_same(found: Option<&Field>, wanted: &Field) -> bool {
    match found {
        Some(field) => {
            field.name.as_str() == wanted.name.as_str()
                && field.number == wanted.number
                && field.kind == wanted.kind
                && field.shape == wanted.shape
        }
        None => false,
    }
}

/// Whether the pool's message of this name has the field of a row, by its number and by its name. A row without a field checks nothing.
pub(crate) fn is_found(alloc: Global, pool: &Pool, name: &str, row: &str) -> Result<bool, Fail> {
    let words = words_of(row);
    if words.what != "field" {
        return Ok(true);
    }
    let wanted = field_of(alloc, words)?;
    let id = pool.message_by_name(name).ok_or("no message")?;
    Ok(
        is_same(pool.field_by_number(id, wanted.number), &wanted)
            && is_same(pool.field_by_name(id, wanted.name.as_str()), &wanted),
    )
}
