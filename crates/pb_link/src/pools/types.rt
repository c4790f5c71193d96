//! Message types and enums.

ghost use Rattle.std.specs.Prelude.{◌≡◌, ℕ, ◌<◌, ◌++◌, false, [], ◌∷◌, not, if◌then◌else◌, map, length, string_bytes, IfOk, OnOk};
ghost use Rattle.std.specs.List.{cons_option, slice_index_or};
ghost use Rattle.pb_schema.specs.View.{message_view, enum_view};
ghost use Rattle.pb_declarations.specs.View.{message_view as declared_view, enum_view as declared_enum, numbered_view};
ghost use Rattle.pb_declarations.specs.Decls.{MessageHead};
ghost use Rattle.pb_link_names.specs.Declarations.{head_of, is_synthetic};
ghost use Rattle.pb_link.specs.PoolOf.{real_oneofs};
ghost use Rattle.pb_link_names.specs.View.{declaration_view};
ghost use Rattle.pb_link.specs.Pools.{real_from, message_read, message_part, enum_read, enum_part, messages_read, enums_read};

use crate::pools::fields::fields_of;
use crate::pools::tables::Tables;
use pb_declarations::{EnumDecl, MessageDecl};
use pb_link_names::declaration::Declaration;
use pb_link_names::item::Item;
use pb_link_names::marks::oneofs::counted;
use pb_schema::{EnumType, MessageType};
use std::alloc::{AllocError, Global};

/// Appends the name of a oneof, unless it is synthetic.
fn add_oneof(is_synthetic: bool, name: &String, names: &mut Vec<String>) -> Result<(), AllocError>
    ensures { OnOk result (map string_bytes names.new.items
        ≡ map string_bytes names.old.items
        ++ (if not is_synthetic then string_bytes name.now ∷ [] else [])) }
{
    if !is_synthetic {
        names.push(name.clone()?)?;
    }
    Ok(())
}

/// The names of those that are not synthetic.
fn real_names(
    alloc: Global,
    are_synthetic: &[bool],
    all: &[String],
) -> Result<Vec<String>, AllocError>
    requires sizes { length are_synthetic.now ≡ length all.now }
    ensures { (head : MessageHead)
        → ((o : ℕ) → o < length all.now → slice_index_or are_synthetic.now o false
        ≡ is_synthetic head o)
        → IfOk result (λ v. map string_bytes v.items
        ≡ real_from head 0 (map string_bytes all.now)) }
{
    let mut names: Vec<String> = Vec::new(alloc);
    for (index, name) in all.iter().enumerate() {
        add_oneof(are_synthetic[index], name, &mut names)?;
    }
    Ok(names)
}

/// The names of the oneofs that are not synthetic.
fn real_oneofs(alloc: Global, message: &MessageDecl) -> Result<Vec<String>, AllocError>
    ensures { IfOk result (λ v. map string_bytes v.items
        ≡ real_oneofs (head_of (declared_view message.now))) }
{
    let oneofs = counted(alloc, &message.fields, message.oneofs.len())?;
    real_names(alloc, &oneofs.are_synthetic, &message.oneofs)
}

/// The type of the message at a place.
fn message_of(
    alloc: Global,
    tables: &Tables<'_>,
    place: usize,
    declaration: &Declaration<'_>,
    message: &MessageDecl,
) -> Result<MessageType, AllocError>
    requires sizes { length tables.now.found.now ≡ length tables.now.row.now }
    requires within { place < length tables.now.row.now }
    ensures { IfOk result (λ t. message_view t
        ≡ message_read tables.now place (declaration_view declaration.now)
        (head_of (declared_view message.now))) }
{
    Ok(MessageType {
        name: message.name.clone()?,
        file: declaration.file,
        parent: tables.parent(declaration.parent),
        fields: fields_of(
            alloc,
            tables,
            tables.is_two(declaration.file),
            &tables.found[place + 1..],
            &message.fields,
        )?,
        oneofs: real_oneofs(alloc, message)?,
    })
}

/// Names and numbers of an enum's values.
fn values_of(alloc: Global, values: &[(String, i32)]) -> Result<Vec<(String, i32)>, AllocError>
    ensures { IfOk result (λ v. map numbered_view v.items ≡ map numbered_view values.now) }
{
    let mut copies: Vec<(String, i32)> = Vec::new(alloc);
    for value in values {
        let name = value.0.clone()?;
        copies.push((name, value.1))?;
    }
    Ok(copies)
}

fn enum_of(
    alloc: Global,
    tables: &Tables<'_>,
    declaration: &Declaration<'_>,
    entry: &EnumDecl,
) -> Result<EnumType, AllocError>
    ensures { IfOk result (λ t. enum_view t ≡ enum_read tables.now
        (declaration_view declaration.now) (declared_enum entry.now)) }
{
    Ok(EnumType {
        name: entry.name.clone()?,
        file: declaration.file,
        parent: tables.parent(declaration.parent),
        values: values_of(alloc, &entry.values)?,
    })
}

/// Appends the message type, if the declaration is a message.
fn add_message(
    alloc: Global,
    tables: &Tables<'_>,
    place: usize,
    declaration: &Declaration<'_>,
    types: &mut Vec<MessageType>,
) -> Result<(), AllocError>
    requires sizes { length tables.now.found.now ≡ length tables.now.row.now }
    requires within { place < length tables.now.row.now }
    ensures { OnOk result (map message_view types.new.items
        ≡ map message_view types.old.items ++ cons_option
        (message_part tables.now place (declaration_view declaration.now)
        (declaration_view declaration.now).item) []) }
{
    if let Item::Message(message) = declaration.item {
        if !message.map_entry {
            types.push(message_of(alloc, tables, place, declaration, message)?)?;
        }
    }
    Ok(())
}

/// The message types, in declaration order.
pub(crate) fn messages_of(
    alloc: Global,
    tables: &Tables<'_>,
) -> Result<Vec<MessageType>, AllocError>
    requires sizes { length tables.now.found.now ≡ length tables.now.row.now }
    ensures { IfOk result (λ v. map message_view v.items
        ≡ messages_read tables.now 0 (map declaration_view tables.now.row.now)) }
{
    let mut types: Vec<MessageType> = Vec::new(alloc);
    let row = tables.row;
    for (place, declaration) in row.iter().enumerate() {
        add_message(alloc, tables, place, declaration, &mut types)?;
    }
    Ok(types)
}

/// Appends the enum type, if the declaration is an enum.
fn add_enum(
    alloc: Global,
    tables: &Tables<'_>,
    declaration: &Declaration<'_>,
    types: &mut Vec<EnumType>,
) -> Result<(), AllocError>
    ensures { OnOk result (map enum_view types.new.items
        ≡ map enum_view types.old.items ++ cons_option
        (enum_part tables.now (declaration_view declaration.now)
        (declaration_view declaration.now).item) []) }
{
    if let Item::Enum(entry) = declaration.item {
        types.push(enum_of(alloc, tables, declaration, entry)?)?;
    }
    Ok(())
}

/// The enums, in declaration order.
pub(crate) fn enums_of(alloc: Global, tables: &Tables<'_>) -> Result<Vec<EnumType>, AllocError>
    ensures { IfOk result (λ v. map enum_view v.items
        ≡ enums_read tables.now (map declaration_view tables.now.row.now)) }
{
    let mut types: Vec<EnumType> = Vec::new(alloc);
    let row = tables.row;
    for declaration in row {
        add_enum(alloc, tables, declaration, &mut types)?;
    }
    Ok(types)
}
