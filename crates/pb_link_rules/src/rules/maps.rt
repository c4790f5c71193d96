//! Map fields and their entry messages.

ghost use Rattle.std.specs.Prelude.{◌≡◌, ◌+◌, ◌&&◌, List, map, true, false, IfOk};
ghost use Rattle.std.specs.List.{list_all, slice_index_or};
ghost use Rattle.std.specs.Option.{option_map_or};
ghost use Rattle.pb_declarations.specs.Decls.{DeclaredFile, inner_of};
ghost use Rattle.pb_declarations.specs.View.{field_view, message_view};
ghost use Rattle.pb_link_names.specs.declared.found.TypeNames.TheVariants as type_names;
ghost use Rattle.pb_link_names.specs.Declarations.{head_of};
ghost use Rattle.pb_link_rules.specs.Rules.{World, lookups, is_key_code, is_group, is_part, is_value_part};
ghost use Rattle.pb_link_rules.specs.Rules.{key_name, value_name, is_used_rightly, has_nothing_inside};
ghost use Rattle.pb_link_rules.specs.Link.{IsWorldOf};
ghost use Rattle.pb_link_rules.specs.Tables.{holds_table};
ghost use Rattle.pb_link_rules.specs.declared.cause.LinkCause.TheVariants as cause;
ghost use Rattle.pb_link_names.specs.ItemView.{item_view};
ghost use Rattle.pb_link_names.specs.View.{declaration_view, found_view, type_names_view};
ghost use Rattle.pb_link_rules.specs.Maps.{are_right_parts, right_parts, is_right_entry, are_plain, entry_rule, map_rule};

use crate::rules::kinds::{are_no_entries, is_entry};
use crate::rules::uses::{is_map_field, names_at, use_marks};
use pb_declarations::{FieldDecl, MessageDecl, TypeCode};
use pb_link_names::declaration::Declaration;
use pb_link_names::found::{Found, TypeNames};
use pb_link_names::item::Item;
use std::alloc::{AllocError, Global};

/// Whether the type is that of a key.
fn is_key_code(code: TypeCode) -> bool
    ensures { result ≡ is_key_code code }
{
    match code {
        TypeCode::Int64
        | TypeCode::Uint64
        | TypeCode::Int32
        | TypeCode::Fixed64
        | TypeCode::Fixed32
        | TypeCode::Bool
        | TypeCode::Text
        | TypeCode::Uint32
        | TypeCode::Sfixed32
        | TypeCode::Sfixed64
        | TypeCode::Sint32
        | TypeCode::Sint64 => true,
        TypeCode::Double
        | TypeCode::Float
        | TypeCode::Group
        | TypeCode::Message
        | TypeCode::Bytes
        | TypeCode::Enum => false,
    }
}

/// Whether the type is that of a group.
pub fn is_group(code: Option<TypeCode>) -> bool
    ensures { result ≡ is_group code }
{
    match code {
        Some(TypeCode::Group) => true,
        None
        | Some(TypeCode::Double)
        | Some(TypeCode::Float)
        | Some(TypeCode::Int64)
        | Some(TypeCode::Uint64)
        | Some(TypeCode::Int32)
        | Some(TypeCode::Fixed64)
        | Some(TypeCode::Fixed32)
        | Some(TypeCode::Bool)
        | Some(TypeCode::Text)
        | Some(TypeCode::Message)
        | Some(TypeCode::Bytes)
        | Some(TypeCode::Uint32)
        | Some(TypeCode::Enum)
        | Some(TypeCode::Sfixed32)
        | Some(TypeCode::Sfixed64)
        | Some(TypeCode::Sint32)
        | Some(TypeCode::Sint64) => false,
    }
}

fn has_key_code(field: &FieldDecl) -> bool
    ensures { result ≡ option_map_or is_key_code (field_view field.now).type_code false }
{
    match field.ty {
        Some(code) => is_key_code(code),
        None => false,
    }
}

/// Whether a field of an entry is its key.
fn is_key(field: &FieldDecl) -> bool
    ensures { result ≡ is_part key_name 1 (field_view field.now) }
{
    "key" == field.name.as_str() && 1 == field.number && !field.repeated && field.oneof.is_none()
}

fn is_second(field: &FieldDecl) -> bool
    ensures { result ≡ is_part value_name 2 (field_view field.now) }
{
    "value" == field.name.as_str() && 2 == field.number && !field.repeated && field.oneof.is_none()
}

/// Whether a field of an entry is its value, which is no group.
fn is_value(field: &FieldDecl) -> bool
    ensures { result ≡ is_value_part (field_view field.now) }
{
    is_second(field) && !is_group(field.ty)
}

/// Whether fields are the key and the value of an entry, by whether the value is no entry.
fn are_right_parts(key: &FieldDecl, value: &FieldDecl, is_plain: bool) -> bool
    ensures { result ≡ are_right_parts (field_view key.now) (field_view value.now) is_plain }
{
    is_key(key) && is_value(value) && has_key_code(key) && is_plain
}

/// Whether the fields are a key and a value, by which of the two are no entries.
fn right_parts(fields: &[FieldDecl], is_first_plain: bool, is_second_plain: bool) -> bool
    ensures { result ≡ right_parts (map field_view fields.now) is_first_plain is_second_plain }
{
    match fields {
        [first, second] => {
            are_right_parts(first, second, is_second_plain)
                || are_right_parts(second, first, is_first_plain)
        }
        [] => false,
        [_] => false,
        [_, _, _, ..] => false,
    }
}

fn all_three(one: bool, other: bool, third: bool) -> bool
    ensures { result ≡ (one && other && third) }
{
    one && other && third
}

/// Whether nothing is declared in a message but fields.
fn has_nothing_inside(message: &MessageDecl) -> bool
    ensures { result ≡ has_nothing_inside (head_of (message_view message.now)) (inner_of (message_view message.now)) }
{
    let no_messages = message.messages.is_empty();
    let no_enums = message.enums.is_empty();
    let no_oneofs = message.oneofs.is_empty();
    all_three(no_messages, no_enums, no_oneofs)
}

fn is_used_rightly(
    alloc: Global,
    row: &[Declaration],
    declaration: &Declaration,
    found: Found,
) -> Result<bool, AllocError>
    ensures { IfOk result (λ b. (w : World) → w.declared ≡ map declaration_view row.now
        → b ≡ is_used_rightly w (declaration_view declaration.now) (found_view found)) }
{
    let Found::Type(place) = found else {
        return Ok(true);
    };
    let Some(entry) = row.get(place) else {
        return Ok(true);
    };
    if !is_entry(entry) {
        return Ok(true);
    }
    let is_right = is_map_field(alloc, entry, declaration)?;
    Ok(is_right)
}

fn each(one: bool, other: bool) -> bool
    ensures { result ≡ (one && (other && true)) }
{
    one && other
}

/// Whether a field that uses an entry is its map field.
fn are_used_rightly(
    alloc: Global,
    row: &[Declaration],
    declaration: &Declaration,
    names: TypeNames,
) -> Result<bool, AllocError>
    ensures { IfOk result (λ b. (w : World) → w.declared ≡ map declaration_view row.now
        → b ≡ list_all (is_used_rightly w (declaration_view declaration.now)) (type_names_view names)) }
{
    match names {
        TypeNames::None => Ok(true),
        TypeNames::One(found) => {
            let is_right = is_used_rightly(alloc, row, declaration, found)?;
            Ok(is_right)
        }
        TypeNames::Two(input, output) => {
            let one = is_used_rightly(alloc, row, declaration, input)?;
            let other = is_used_rightly(alloc, row, declaration, output)?;
            Ok(each(one, other))
        }
    }
}

/// The type names found at `steps` places after a place.
fn names_behind(found: &[TypeNames], place: usize, steps: usize) -> TypeNames
    ensures { result ≡ slice_index_or found.now (place + steps) type_names.None }
{
    match place.checked_add(steps) {
        Some(at) => names_at(found, at),
        None => TypeNames::None,
    }
}

fn is_right_entry(is_entry: bool, is_used: bool, has_parts: bool, is_bare: bool) -> bool
    ensures { result ≡ is_right_entry is_entry is_used has_parts is_bare }
{
    !is_entry || (is_used && has_parts && is_bare)
}

/// Whether the fields of an entry, which follow it directly, are its key and its value.
fn has_parts(row: &[Declaration], found: &[TypeNames], place: usize, fields: &[FieldDecl]) -> bool
    ensures { (w : World) → w.declared ≡ map declaration_view row.now
        → result ≡ right_parts (map field_view fields.now) (are_plain w (slice_index_or found.now (place + 1) type_names.None))
        (are_plain w (slice_index_or found.now (place + 2) type_names.None)) }
{
    let is_first_plain = are_no_entries(row, names_behind(found, place, 1));
    let is_second_plain = are_no_entries(row, names_behind(found, place, 2));
    right_parts(fields, is_first_plain, is_second_plain)
}

fn is_right_message(
    row: &[Declaration],
    found: &[TypeNames],
    place: usize,
    message: &MessageDecl,
    is_used: bool,
) -> bool
    ensures { (w : World) → w.declared ≡ map declaration_view row.now → result ≡ entry_rule w found.now place (message_view message.now) is_used }
{
    let has_parts = has_parts(row, found, place, &message.fields);
    let is_bare = has_nothing_inside(message);
    is_right_entry(message.map_entry, is_used, has_parts, is_bare)
}

/// Whether the rules of map fields hold at a declaration.
fn map_mark(
    alloc: Global,
    row: &[Declaration],
    found: &[TypeNames],
    place: usize,
    declaration: &Declaration,
    is_used: bool,
) -> Result<bool, AllocError>
    ensures { IfOk result (λ b. (w : World) → w.declared ≡ map declaration_view row.now
        → b ≡ map_rule w found.now place (declaration_view declaration.now) is_used (item_view declaration.now.item)) }
{
    match declaration.item {
        Item::Message(message) => Ok(is_right_message(row, found, place, message, is_used)),
        Item::Field(_, _, _) => {
            let is_right = are_used_rightly(alloc, row, declaration, names_at(found, place))?;
            Ok(is_right)
        }
        Item::Method(_) => Ok(are_no_entries(row, names_at(found, place))),
        Item::File(_) => Ok(true),
        Item::Oneof(_, _, _) => Ok(true),
        Item::Enum(_) => Ok(true),
        Item::Value(_, _, _) => Ok(true),
        Item::Service(_) => Ok(true),
    }
}

/// By place, whether the rules of map fields hold.
pub(crate) fn map_marks(
    alloc: Global,
    row: &[Declaration],
    found: &[TypeNames],
) -> Result<Vec<bool>, AllocError>
    ensures { IfOk result (λ v. (files : List DeclaredFile) (w : World) → IsWorldOf files w → w.declared ≡ map declaration_view row.now
        → map type_names_view found.now ≡ map (lookups w) w.declared → v.items ≡ holds_table w cause.BadMap) }
{
    let used = use_marks(alloc, row, found)?;
    let mut marks: Vec<bool> = Vec::new(alloc);
    for (place, declaration) in row.iter().enumerate() {
        let mark = map_mark(
            alloc,
            row,
            found,
            place,
            declaration,
            is_used_at(&used, place),
        )?;
        marks.push(mark)?;
    }
    Ok(marks)
}

fn is_used_at(used: &[bool], place: usize) -> bool
    ensures { result ≡ slice_index_or used.now place false }
{
    match used.get(place) {
        Some(used) => *used,
        None => false,
    }
}
