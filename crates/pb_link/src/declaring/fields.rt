//! The declarations of fields, of their oneofs, and of the entry messages of map fields.

ghost use Rattle.std.specs.Prelude.{◌≡◌, ◌<◌, ◌+◌, ◌++◌, ◌^◌, [], ◌∷◌, length, map};
ghost use Rattle.std.specs.Prelude.{filter_map, option_map, is_none, string_bytes, IfOk, OnOk, IsAscii, if◌then◌else◌};
ghost use Rattle.pb_schema.specs.Kinds.{message_of_kind};
ghost use Rattle.pb_schema.specs.View.{field_view as view_of_field};
ghost use Rattle.pb_schema.specs.Names.{entry_name};
ghost use Rattle.pb_schema.specs.Rules.{IsPool, NamesType, NamesOneof};
ghost use Rattle.pb_declarations.specs.View.{field_view, message_view};
ghost use Rattle.pb_link.specs.ToDecls.{code_of_kind, name_of_kind, is_repeated_shape, is_optional_field};
ghost use Rattle.pb_link.specs.ToDecls.{code_of_field, name_of_type, packed_of_list, packed_of_field};
ghost use Rattle.pb_link.specs.ToDecls.{oneof_of_field, declared_field, declared_fields, synthetic_names, entry_part, entry_message, entry_of_field};
ghost use Rattle.pb_link_rules.specs.Rules.{key_name, value_name};
ghost use Rattle.pb_link.specs.Declarable.{IsDeclarable, AreDeclarable};

use crate::declaring::text::{dotted, dotted_entry, synthetic_name};
use pb_declarations::{FieldDecl, MessageDecl, TypeCode};
use pb_schema::{Field, Kind, Pool, Shape, entry_name};
use std::alloc::{AllocError, Global};

/// The type number of a kind.
fn code_of_kind(kind: Kind) -> TypeCode
    ensures { result ≡ code_of_kind kind }
{
    match kind {
        Kind::Double => TypeCode::Double,
        Kind::Float => TypeCode::Float,
        Kind::Int64 => TypeCode::Int64,
        Kind::Uint64 => TypeCode::Uint64,
        Kind::Int32 => TypeCode::Int32,
        Kind::Fixed64 => TypeCode::Fixed64,
        Kind::Fixed32 => TypeCode::Fixed32,
        Kind::Bool => TypeCode::Bool,
        Kind::Text => TypeCode::Text,
        Kind::Bytes => TypeCode::Bytes,
        Kind::Uint32 => TypeCode::Uint32,
        Kind::Sfixed32 => TypeCode::Sfixed32,
        Kind::Sfixed64 => TypeCode::Sfixed64,
        Kind::Sint32 => TypeCode::Sint32,
        Kind::Sint64 => TypeCode::Sint64,
        Kind::Enum(_) => TypeCode::Enum,
        Kind::Message(_) => TypeCode::Message,
        Kind::Group(_) => TypeCode::Group,
        Kind::ClosedEnum(_) => TypeCode::Enum,
    }
}

/// A dot and the full name of the type that a kind names.
fn name_of_kind(alloc: Global, pool: &Pool, kind: Kind) -> Result<Option<String>, AllocError>
    requires pool { IsPool pool.now }
    requires named { NamesType (length pool.now.messages) (length pool.now.enums) kind }
    ensures { IfOk result (λ n. option_map string_bytes n ≡ name_of_kind pool.now kind) }
{
    match kind {
        Kind::Message(id) => {
            let name = dotted(alloc, pool.message_name(id))?;
            Ok(Some(name))
        }
        Kind::Enum(id) => {
            let name = dotted(alloc, pool.enum_name(id))?;
            Ok(Some(name))
        }
        Kind::Group(id) => {
            let name = dotted(alloc, pool.message_name(id))?;
            Ok(Some(name))
        }
        Kind::ClosedEnum(id) => {
            let name = dotted(alloc, pool.enum_name(id))?;
            Ok(Some(name))
        }
        Kind::Double
        | Kind::Float
        | Kind::Int64
        | Kind::Uint64
        | Kind::Int32
        | Kind::Fixed64
        | Kind::Fixed32
        | Kind::Bool
        | Kind::Text
        | Kind::Bytes
        | Kind::Uint32
        | Kind::Sfixed32
        | Kind::Sfixed64
        | Kind::Sint32
        | Kind::Sint64 => Ok(None),
    }
}

fn is_repeated(shape: Shape) -> bool
    ensures { result ≡ is_repeated_shape shape }
{
    match shape {
        Shape::List { .. } | Shape::Map { .. } => true,
        Shape::Implicit | Shape::Explicit | Shape::OneofMember(_) => false,
    }
}

/// The kind is no message.
fn is_scalar(kind: Kind) -> bool
    ensures { result ≡ is_none (message_of_kind kind) }
{
    match kind {
        Kind::Message(_) | Kind::Group(_) => false,
        Kind::Double
        | Kind::Float
        | Kind::Int64
        | Kind::Uint64
        | Kind::Int32
        | Kind::Fixed64
        | Kind::Fixed32
        | Kind::Bool
        | Kind::Text
        | Kind::Bytes
        | Kind::Uint32
        | Kind::Sfixed32
        | Kind::Sfixed64
        | Kind::Sint32
        | Kind::Sint64
        | Kind::Enum(_)
        | Kind::ClosedEnum(_) => true,
    }
}

/// A field of explicit presence that is no message, and not in a file of proto2.
pub(crate) fn is_optional(proto2: bool, shape: Shape, kind: Kind) -> bool
    ensures { result ≡ is_optional_field proto2 shape kind }
{
    match shape {
        Shape::Explicit => !proto2 && is_scalar(kind),
        Shape::Implicit | Shape::OneofMember(_) | Shape::List { .. } | Shape::Map { .. } => false,
    }
}

fn code_of_field(shape: Shape, kind: Kind) -> TypeCode
    ensures { result ≡ code_of_field shape kind }
{
    match shape {
        Shape::Map { .. } => TypeCode::Message,
        Shape::Implicit | Shape::Explicit | Shape::OneofMember(_) | Shape::List { .. } => {
            code_of_kind(kind)
        }
    }
}

/// The name of a field's type, in a message of a full name.
fn name_of_type(
    alloc: Global,
    pool: &Pool,
    scope: &[u8],
    field: &Field,
) -> Result<Option<String>, AllocError>
    requires pool { IsPool pool.now }
    requires scope { IsAscii scope.now }
    requires field { IsDeclarable pool.now (view_of_field field.now) }
    ensures { IfOk result (λ n. option_map string_bytes n
        ≡ name_of_type pool.now scope.now
        (view_of_field field.now).name field.now.shape field.now.kind) }
{
    match field.shape {
        Shape::Map { .. } => {
            let name = dotted_entry(alloc, scope, field.name.as_str().as_bytes())?;
            Ok(Some(name))
        }
        Shape::Implicit | Shape::Explicit | Shape::OneofMember(_) | Shape::List { .. } => {
            let name = name_of_kind(alloc, pool, field.kind)?;
            Ok(name)
        }
    }
}

/// An unpacked list of a packable kind says so; in a file of proto2 a packed list does.
fn packed_of_list(proto2: bool, packed: bool, kind: Kind) -> Option<bool>
    ensures { result ≡ packed_of_list proto2 packed kind }
{
    if proto2 {
        return if packed { Some(true) } else { None };
    }
    if kind.is_packable() && !packed {
        Some(false)
    } else {
        None
    }
}

fn packed_of_field(proto2: bool, shape: Shape, kind: Kind) -> Option<bool>
    ensures { result ≡ packed_of_field proto2 shape kind }
{
    match shape {
        Shape::List { packed } => packed_of_list(proto2, packed, kind),
        Shape::Implicit | Shape::Explicit | Shape::OneofMember(_) | Shape::Map { .. } => None,
    }
}

/// The oneof of a field, which is a synthetic one of this index where the field is optional.
fn oneof_of_field(proto2: bool, synthetic: usize, shape: Shape, kind: Kind) -> Option<i32>
    requires few { synthetic < 2 ^ 31 }
    requires member { NamesOneof (2 ^ 31) shape }
    ensures { result ≡ oneof_of_field proto2 synthetic shape kind }
{
    match shape {
        Shape::OneofMember(oneof) => Some(oneof as i32),
        Shape::Explicit => {
            if !proto2 && is_scalar(kind) {
                Some(synthetic as i32)
            } else {
                None
            }
        }
        Shape::Implicit | Shape::List { .. } | Shape::Map { .. } => None,
    }
}

/// A field of a message with this full name, where its synthetic oneof would have this index.
fn field_decl(
    alloc: Global,
    pool: &Pool,
    proto2: bool,
    scope: &[u8],
    synthetic: usize,
    field: &Field,
) -> Result<FieldDecl, AllocError>
    requires pool { IsPool pool.now }
    requires scope { IsAscii scope.now }
    requires few { synthetic < 2 ^ 31 }
    requires field { IsDeclarable pool.now (view_of_field field.now) }
    ensures { IfOk result (λ d. field_view d ≡ declared_field proto2 pool.now scope.now synthetic
        (view_of_field field.now)) }
{
    let name = field.name.clone()?;
    let type_name = name_of_type(alloc, pool, scope, field)?;
    Ok(FieldDecl {
        name,
        number: field.number as i32,
        repeated: is_repeated(field.shape),
        ty: Some(code_of_field(field.shape, field.kind)),
        type_name,
        packed: packed_of_field(proto2, field.shape, field.kind),
        oneof: oneof_of_field(proto2, synthetic, field.shape, field.kind),
        proto3_optional: is_optional(proto2, field.shape, field.kind),
    })
}

/// The index of the next synthetic oneof after a field.
fn behind(proto2: bool, synthetic: usize, field: &Field) -> usize
    requires { synthetic < 2 ^ 31 }
    ensures { result ≡ (if is_optional_field proto2 field.now.shape field.now.kind then
        synthetic + 1 else synthetic) }
{
    if is_optional(proto2, field.shape, field.kind) {
        synthetic + 1
    } else {
        synthetic
    }
}

/// The fields of a message with this full name and number of oneofs. The synthetic oneofs are numbered after these.
pub(crate) fn field_decls(
    alloc: Global,
    pool: &Pool,
    proto2: bool,
    scope: &[u8],
    oneofs: usize,
    fields: &[Field],
) -> Result<Vec<FieldDecl>, AllocError>
    requires pool { IsPool pool.now }
    requires scope { IsAscii scope.now }
    requires few { oneofs + length fields.now < 2 ^ 31 }
    requires fields { AreDeclarable pool.now (map view_of_field fields.now) }
    ensures { IfOk result (λ v. map field_view v.items
        ≡ declared_fields proto2 pool.now scope.now oneofs (map view_of_field fields.now)) }
{
    let mut decls = Vec::with_capacity(alloc, fields.len())?;
    let mut synthetic = oneofs;
    for field in fields {
        let decl = field_decl(alloc, pool, proto2, scope, synthetic, field)?;
        decls.push(decl)?;
        synthetic = behind(proto2, synthetic, field);
    }
    Ok(decls)
}

/// Appends the names of the synthetic oneofs of some fields to those of the other oneofs.
pub(crate) fn add_synthetic(
    alloc: Global,
    proto2: bool,
    fields: &[Field],
    oneofs: &mut Vec<String>,
) -> Result<(), AllocError>
    ensures { OnOk result (map string_bytes oneofs.new.items
        ≡ map string_bytes oneofs.old.items ++ synthetic_names proto2
        (map view_of_field fields.now)) }
{
    for field in fields {
        if is_optional(proto2, field.shape, field.kind) {
            let name = synthetic_name(alloc, field.name.as_str())?;
            oneofs.push(name)?;
        }
    }
    Ok(())
}

/// A field of an entry message.
fn entry_part(
    alloc: Global,
    pool: &Pool,
    name: &str,
    number: u8,
    kind: Kind,
) -> Result<FieldDecl, AllocError>
    requires pool { IsPool pool.now }
    requires named { NamesType (length pool.now.messages) (length pool.now.enums) kind }
    ensures { IfOk result (λ d. field_view d ≡ entry_part pool.now name.now number kind) }
{
    let name = String::from_str(alloc, name)?;
    let type_name = name_of_kind(alloc, pool, kind)?;
    Ok(FieldDecl {
        name,
        number: number as i32,
        repeated: false,
        ty: Some(code_of_kind(kind)),
        type_name,
        packed: None,
        oneof: None,
        proto3_optional: false,
    })
}

/// The fields of an entry message.
fn entry_parts(
    alloc: Global,
    pool: &Pool,
    key: Kind,
    value: Kind,
) -> Result<Vec<FieldDecl>, AllocError>
    requires pool { IsPool pool.now }
    requires key { NamesType (length pool.now.messages) (length pool.now.enums) key }
    requires value { NamesType (length pool.now.messages) (length pool.now.enums) value }
    ensures { IfOk result (λ v. map field_view v.items
        ≡ entry_part pool.now key_name 1 key ∷ entry_part pool.now value_name 2 value ∷ []) }
{
    let first = entry_part(alloc, pool, "key", 1, key)?;
    let second = entry_part(alloc, pool, "value", 2, value)?;
    let mut parts = Vec::with_capacity(alloc, 2)?;
    parts.push(first)?;
    parts.push(second)?;
    Ok(parts)
}

/// The entry message of a map field.
fn entry_decl(
    alloc: Global,
    pool: &Pool,
    name: &[u8],
    key: Kind,
    value: Kind,
) -> Result<MessageDecl, AllocError>
    requires pool { IsPool pool.now }
    requires name { IsAscii (entry_name name.now) }
    requires key { NamesType (length pool.now.messages) (length pool.now.enums) key }
    requires value { NamesType (length pool.now.messages) (length pool.now.enums) value }
    ensures { IfOk result (λ m. message_view m ≡ entry_message pool.now name.now key value) }
{
    let fields = entry_parts(alloc, pool, key, value)?;
    let entry = entry_name(alloc, name)?;
    let name = String::from_utf8_lossy(alloc, entry.as_slice())?;
    Ok(MessageDecl {
        name,
        fields,
        messages: Vec::new(alloc),
        enums: Vec::new(alloc),
        oneofs: Vec::new(alloc),
        reserved: Vec::new(alloc),
        reserved_names: Vec::new(alloc),
        map_entry: true,
    })
}

/// Appends the entry message of a field, if it has one.
fn add_entry(
    alloc: Global,
    pool: &Pool,
    field: &Field,
    messages: &mut Vec<MessageDecl>,
) -> Result<(), AllocError>
    requires pool { IsPool pool.now }
    requires field { IsDeclarable pool.now (view_of_field field.now) }
    ensures { OnOk result (map message_view messages.new.items
        ≡ map message_view messages.old.items ++ filter_map (entry_of_field pool.now)
        (view_of_field field.now ∷ [])) }
{
    match field.shape {
        Shape::Map { key } => {
            let entry = entry_decl(alloc, pool, field.name.as_str().as_bytes(), key, field.kind)?;
            messages.push(entry)?;
            Ok(())
        }
        Shape::Implicit => Ok(()),
        Shape::Explicit => Ok(()),
        Shape::OneofMember(_) => Ok(()),
        Shape::List { .. } => Ok(()),
    }
}

/// Appends the entry messages of map fields to the messages that are nested beside them.
pub(crate) fn add_entries(
    alloc: Global,
    pool: &Pool,
    fields: &[Field],
    messages: &mut Vec<MessageDecl>,
) -> Result<(), AllocError>
    requires pool { IsPool pool.now }
    requires fields { AreDeclarable pool.now (map view_of_field fields.now) }
    ensures { OnOk result (map message_view messages.new.items
        ≡ map message_view messages.old.items ++ filter_map (entry_of_field pool.now)
        (map view_of_field fields.now)) }
{
    for field in fields {
        add_entry(alloc, pool, field, messages)?;
    }
    Ok(())
}
