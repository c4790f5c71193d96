//! Fields of message types.

ghost use Rattle.std.specs.Prelude.{◌≡◌, map, length, option_map, IfOk, if◌then◌else◌};
ghost use Rattle.std.specs.Str.{bytes_eq};
ghost use Rattle.pb_schema.specs.View.{field_view};
ghost use Rattle.pb_declarations.specs.View.{field_view as declared_view, message_view};
ghost use Rattle.pb_link_names.specs.Declarations.{head_of};
ghost use Rattle.pb_link_rules.specs.Rules.{key_name};
ghost use Rattle.pb_link_names.specs.View.{declaration_view};
ghost use Rattle.pb_link.specs.PoolOf.{list_shape, singular_shape, number_of};
ghost use Rattle.pb_link.specs.Pools.{fields_of_entry, entry_read, parts_read, field_by_place, fields_read};

use crate::pools::tables::{Tables, kind_of_number, place_named};
use pb_declarations::{FieldDecl, MessageDecl};
use pb_link_names::declaration::Declaration;
use pb_link_names::found::TypeNames;
use pb_link_names::item::Item;
use pb_schema::{Field, Kind, Shape};
use std::alloc::{AllocError, Global};

fn list_shape(proto2: bool, kind: Kind, field: &FieldDecl) -> Shape
    ensures { result ≡ list_shape proto2 kind (declared_view field.now) }
{
    let packed = kind.is_packable() && field.packed.unwrap_or(!proto2);
    Shape::List { packed }
}

fn singular_shape(proto2: bool, kind: Kind, field: &FieldDecl) -> Shape
    ensures { result ≡ singular_shape proto2 kind (declared_view field.now) }
{
    if field.proto3_optional {
        return Shape::Explicit;
    }
    if let Some(oneof) = field.oneof {
        if oneof >= 0 {
            return Shape::OneofMember(oneof as u32);
        }
    }
    if proto2 {
        return Shape::Explicit;
    }
    match kind {
        Kind::Message(_) | Kind::Group(_) => Shape::Explicit,
        Kind::Double
        | Kind::Float
        | Kind::Int64
        | Kind::Uint64
        | Kind::Int32
        | Kind::Fixed64
        | Kind::Fixed32
        | Kind::Bool
        | Kind::Text
        | Kind::Bytes
        | Kind::Uint32
        | Kind::Sfixed32
        | Kind::Sfixed64
        | Kind::Sint32
        | Kind::Sint64
        | Kind::Enum(_)
        | Kind::ClosedEnum(_) => Shape::Implicit,
    }
}

/// The shape of a field that is no map.
fn shape_of(proto2: bool, kind: Kind, field: &FieldDecl) -> Shape
    ensures { result ≡ (if (declared_view field.now).is_repeated then list_shape proto2 kind
        (declared_view field.now) else singular_shape proto2 kind (declared_view field.now)) }
{
    if field.repeated {
        list_shape(proto2, kind, field)
    } else {
        singular_shape(proto2, kind, field)
    }
}

fn number_of(number: i32) -> u32
    ensures { result ≡ number_of number }
{
    if number < 0 { 0 } else { number as u32 }
}

/// The entry message that is declared, if it is one.
fn entry_of<'a>(declaration: &Declaration<'a>) -> Option<&'a MessageDecl>
    ensures { option_map (λ m. (head_of (message_view m.now)).fields) result
        ≡ fields_of_entry (declaration_view declaration.now).item }
{
    if let Item::Message(message) = declaration.item {
        if message.map_entry {
            return Some(message);
        }
    }
    None
}

/// The entry at a place, if there is one.
fn entry_at<'a>(tables: &Tables<'a>, place: usize) -> Option<&'a MessageDecl>
    ensures { option_map (λ m. (head_of (message_view m.now)).fields) result
        ≡ entry_read tables.now place }
{
    match tables.row.get(place) {
        Some(declaration) => entry_of(declaration),
        None => None,
    }
}

fn is_key(field: &FieldDecl) -> bool
    ensures { result ≡ bytes_eq key_name (declared_view field.now).name }
{
    "key" == field.name.as_str()
}

/// The kinds of the key and the value of an entry, whose fields name these types.
fn parts_of(tables: &Tables<'_>, names: &[TypeNames], entry: &[FieldDecl]) -> (Kind, Kind)
    ensures { result ≡ parts_read tables.now names.now (map declared_view entry.now) }
{
    if entry.len() != 2 {
        return (Kind::Bool, Kind::Bool);
    }
    let first = &entry[0];
    let second = &entry[1];
    if is_key(first) {
        (
            kind_of_number(first.ty),
            tables.kind(place_named(names, 1), second.ty),
        )
    } else {
        (
            kind_of_number(second.ty),
            tables.kind(place_named(names, 0), first.ty),
        )
    }
}

/// What a field is, by the place of the type that it names.
fn kind_and_shape(
    tables: &Tables<'_>,
    proto2: bool,
    place: Option<usize>,
    field: &FieldDecl,
) -> (Kind, Shape)
    requires sizes { length tables.now.found.now ≡ length tables.now.row.now }
    ensures kind { result.0 ≡ (field_by_place proto2 tables.now
        (declared_view field.now) place).kind }
    ensures shape { result.1 ≡ (field_by_place proto2 tables.now
        (declared_view field.now) place).shape }
{
    if let Some(at) = place {
        if let Some(entry) = entry_at(tables, at) {
            let (key, value) = parts_of(tables, &tables.found[at + 1..], &entry.fields);
            return (value, Shape::Map { key });
        }
    }
    let kind = tables.kind(place, field.ty);
    (kind, shape_of(proto2, kind, field))
}

/// The type of a field that names the type at a place, if it names one.
fn field_of(
    tables: &Tables<'_>,
    proto2: bool,
    place: Option<usize>,
    field: &FieldDecl,
) -> Result<Field, AllocError>
    requires sizes { length tables.now.found.now ≡ length tables.now.row.now }
    ensures { IfOk result (λ f. field_view f ≡ field_by_place proto2 tables.now
        (declared_view field.now) place) }
{
    let (kind, shape) = kind_and_shape(tables, proto2, place, field);
    Ok(Field {
        name: field.name.clone()?,
        number: number_of(field.number),
        kind,
        shape,
    })
}

/// The fields of a message, which name these types, by whether its file is of proto2.
pub(crate) fn fields_of(
    alloc: Global,
    tables: &Tables<'_>,
    proto2: bool,
    names: &[TypeNames],
    fields: &[FieldDecl],
) -> Result<Vec<Field>, AllocError>
    requires sizes { length tables.now.found.now ≡ length tables.now.row.now }
    ensures { IfOk result (λ v. map field_view v.items
        ≡ fields_read proto2 tables.now names.now 0 (map declared_view fields.now)) }
{
    let mut types: Vec<Field> = Vec::new(alloc);
    for (index, field) in fields.iter().enumerate() {
        let made = field_of(tables, proto2, place_named(names, index), field)?;
        types.push(made)?;
    }
    Ok(types)
}
