//! Files of sources that were read leniently, whose maps of enums in files of proto2 are lists of their entries.

ghost use Rattle.std.specs.Prelude.{◌≡◌, List, map, IfOk};
ghost use Rattle.std.specs.List.{list_any};
ghost use Rattle.pb_declarations.specs.Decls.{DeclaredFile};
ghost use Rattle.pb_declarations.specs.View.{field_view, message_view, file_view};
ghost use Rattle.pb_link_names.specs.Declarations.{head_of};
ghost use Rattle.pb_link_rules.specs.Rules.{World};
ghost use Rattle.pb_link_rules.specs.Link.{IsWorldOf};
ghost use Rattle.pb_link.specs.Resolved.{resolved_files};
ghost use Rattle.pb_link.specs.EnumMaps.{is_enum_value, is_map, message_without_maps, file_without_maps, ListsEnumMaps};

use crate::resolving::files::resolve_files;
use pb_declarations::{FieldDecl, FileDecl, MessageDecl, TypeCode};
use pb_link_rules::named::named_files;
use std::alloc::{AllocError, Global};

/// The field number of the value in the entry of a map.
const VALUE: i32 = 2;

/// Whether a field of an entry is its value, and of an enum.
fn is_enum_value(field: &FieldDecl) -> bool
    ensures { result ≡ is_enum_value (field_view field.now) }
{
    field.number == VALUE && matches!(field.ty, Some(TypeCode::Enum))
}

/// Whether one of some fields is the value of an entry, and of an enum.
fn any_enum_value(fields: &[FieldDecl]) -> bool
    ensures { result ≡ list_any (λ field. is_enum_value (field_view field)) fields.now }
{
    fields.iter().any(|field| is_enum_value(field))
}

/// Whether a message stays the entry of a map.
fn is_map(message: &MessageDecl) -> bool
    ensures { result ≡ is_map (head_of (message_view message.now)) }
{
    message.map_entry && !any_enum_value(&message.fields)
}

#[cycle(list_maps)]
fn list_maps_in(message: &mut MessageDecl)
    ensures { message_view message.new ≡ message_without_maps (message_view message.old) }
{
    message.map_entry = is_map(message);
    list_maps(&mut message.messages);
}

#[cycle(list_maps)]
fn list_maps(messages: &mut [MessageDecl])
    ensures { map message_view messages.new ≡ map message_without_maps
        (map message_view messages.old) }
{
    for message in messages.iter_mut() {
        list_maps_in(message);
    }
}

fn list_maps_of(file: &mut FileDecl)
    ensures { file_view file.new ≡ file_without_maps (file_view file.old) }
{
    if file.proto2 {
        list_maps(&mut file.messages);
    }
}

fn list_all_maps(files: &mut [FileDecl])
    ensures { map file_view files.new ≡ map file_without_maps (map file_view files.old) }
{
    for file in files.iter_mut() {
        list_maps_of(file);
    }
}

/// The files with the types that their names mean, whether or not a rule of linking fails.
fn resolve_types(alloc: Global, files: &[FileDecl]) -> Result<Vec<FileDecl>, AllocError>
    ensures { IfOk result (λ v. (w : World) × IsWorldOf (map file_view files.now) w
        × (map file_view v.items ≡ resolved_files w (map file_view files.now))) }
{
    let named = named_files(alloc, files)?;
    let resolved = resolve_files(alloc, &named.row, &named.found, files)?;
    Ok(resolved)
}

/// The files of sources that were read leniently as `read_set_lenient` of `pb_descr` gives them of a set of these sources: every type name
/// that means a type is written in full after a leading dot, with its type number, and a map in a file of proto2 whose values are of an
/// enum is the list of its entries. No rule of linking is asked: see [`link`](crate::link) and [`resolve`](crate::resolve).
pub fn without_enum_maps(alloc: Global, files: &[FileDecl]) -> Result<Vec<FileDecl>, AllocError>
    ensures made { IfOk result
        (λ v. ListsEnumMaps (map file_view files.now) (map file_view v.items)) }
    ensures exact { (answer : List DeclaredFile) → ListsEnumMaps (map file_view files.now) answer
        → IfOk result (λ v. map file_view v.items ≡ answer) }
{
    let mut resolved = resolve_types(alloc, files)?;
    list_all_maps(&mut resolved);
    Ok(resolved)
}
