//! What the types of fields and methods mean.

ghost use Rattle.std.specs.Prelude.{◌≡◌, ◌&&◌, ◌||◌, List, map, not, true};
ghost use Rattle.std.specs.List.{list_any, list_all};
ghost use Rattle.pb_declarations.specs.Decls.{DeclaredFile};
ghost use Rattle.pb_declarations.specs.View.{field_view, file_view};
ghost use Rattle.pb_link_names.specs.Declarations.{Declaration as DeclarationView};
ghost use Rattle.pb_link_names.specs.Sees.{Sight};
ghost use Rattle.pb_link_rules.specs.Rules.{lookups, passes, passes_declared, is_message, is_message_type, is_enum, is_two, is_open, is_enum_right};
ghost use Rattle.pb_link_rules.specs.Rules.{is_of_entry, is_entry, is_not_entry, is_same_fault, is_packable_code, is_packable, is_packed_right, is_type_right};
ghost use Rattle.pb_link_names.specs.Lookup.{not_found, not_visible, not_a_type};
ghost use Rattle.pb_link_rules.specs.Judging.{world_of};
ghost use Rattle.pb_link_names.specs.ItemView.{item_view};
ghost use Rattle.pb_link_names.specs.View.{declaration_view, found_view, type_names_view};

use pb_declarations::{FieldDecl, FileDecl, TypeCode};
use pb_link_names::declaration::Declaration;
use pb_link_names::found::{Found, TypeNames};
use pb_link_names::item::Item;

/// Whether what was found, if it was, is a message.
fn is_message(row: &[Declaration], found: Found) -> bool
    ensures { (fs : List DeclaredFile) (s : Sight) → result ≡ passes (world_of fs (map declaration_view row.now) s) is_message (found_view found) }
{
    let Found::Type(place) = found else {
        return true;
    };
    match row.get(place) {
        Some(declaration) => matches!(declaration.item, Item::Message(_)),
        None => true,
    }
}

/// Whether what was found, if it was, is an enum.
fn is_enum(row: &[Declaration], found: Found) -> bool
    ensures { (fs : List DeclaredFile) (s : Sight) → result ≡ passes (world_of fs (map declaration_view row.now) s) is_enum (found_view found) }
{
    let Found::Type(place) = found else {
        return true;
    };
    match row.get(place) {
        Some(declaration) => matches!(declaration.item, Item::Enum(_)),
        None => true,
    }
}

/// Whether a declaration is a message, and no entry.
fn is_message_type(declaration: &Declaration) -> bool
    ensures { result ≡ is_message_type (item_view declaration.now.item) }
{
    match declaration.item {
        Item::Message(message) => !message.map_entry,
        Item::File(_)
        | Item::Field(_, _, _)
        | Item::Oneof(_, _, _)
        | Item::Enum(_)
        | Item::Value(_, _, _)
        | Item::Service(_)
        | Item::Method(_) => false,
    }
}

/// Whether a declaration is an entry message.
pub(crate) fn is_entry(declaration: &Declaration) -> bool
    ensures { result ≡ is_entry (item_view declaration.now.item) }
{
    match declaration.item {
        Item::Message(message) => message.map_entry,
        Item::File(_)
        | Item::Field(_, _, _)
        | Item::Oneof(_, _, _)
        | Item::Enum(_)
        | Item::Value(_, _, _)
        | Item::Service(_)
        | Item::Method(_) => false,
    }
}

/// Whether what was found, if it was, is no entry.
pub(crate) fn is_no_entry(row: &[Declaration], found: Found) -> bool
    ensures { (fs : List DeclaredFile) (s : Sight) → result ≡ passes (world_of fs (map declaration_view row.now) s) is_not_entry (found_view found) }
{
    let Found::Type(place) = found else {
        return true;
    };
    match row.get(place) {
        Some(declaration) => !is_entry(declaration),
        None => true,
    }
}

/// Whether the file of an index is of proto2.
pub fn is_two(files: &[FileDecl], index: usize) -> bool
    ensures { result ≡ is_two (map file_view files.now) index }
{
    match files.get(index) {
        Some(file) => file.proto2,
        None => false,
    }
}

/// Whether what was found, if it was, is a message that is no entry.
fn is_plain_message(row: &[Declaration], found: Found) -> bool
    ensures { (fs : List DeclaredFile) (s : Sight) → result ≡ passes (world_of fs (map declaration_view row.now) s) is_message_type (found_view found) }
{
    let Found::Type(place) = found else {
        return true;
    };
    match row.get(place) {
        Some(declaration) => is_message_type(declaration),
        None => true,
    }
}

/// Whether a declaration is no enum of a file of proto2.
fn is_open(files: &[FileDecl], declaration: &Declaration) -> bool
    ensures { result ≡ is_open (map file_view files.now) (declaration_view declaration.now) }
{
    match declaration.item {
        Item::Enum(_) => !is_two(files, declaration.file),
        Item::File(_)
        | Item::Message(_)
        | Item::Field(_, _, _)
        | Item::Oneof(_, _, _)
        | Item::Value(_, _, _)
        | Item::Service(_)
        | Item::Method(_) => true,
    }
}

/// Whether what was found, if it was, is no enum of a file of proto2.
fn is_no_closed_enum(files: &[FileDecl], row: &[Declaration], found: Found) -> bool
    ensures { (s : Sight)
        → result ≡ passes_declared (world_of (map file_view files.now) (map declaration_view row.now) s) (is_open (map file_view files.now))
        (found_view found) }
{
    let Found::Type(place) = found else {
        return true;
    };
    match row.get(place) {
        Some(declaration) => is_open(files, declaration),
        None => true,
    }
}

/// Whether both hold, as a list's tests go.
fn each(one: bool, other: bool) -> bool
    ensures { result ≡ (one && (other && true)) }
{
    one && other
}

fn both(one: bool, other: bool) -> bool
    ensures { result ≡ (one && other) }
{
    one && other
}

fn either(one: bool, other: bool) -> bool
    ensures { result ≡ (one || other) }
{
    one || other
}

/// Whether the types that were found are messages.
pub(crate) fn are_messages(row: &[Declaration], names: TypeNames) -> bool
    ensures { (fs : List DeclaredFile) (s : Sight)
        → result ≡ list_all (passes (world_of fs (map declaration_view row.now) s) is_message) (type_names_view names) }
{
    match names {
        TypeNames::None => true,
        TypeNames::One(found) => is_message(row, found),
        TypeNames::Two(input, output) => each(is_message(row, input), is_message(row, output)),
    }
}

/// Whether the types that were found are enums.
fn are_enums(row: &[Declaration], names: TypeNames) -> bool
    ensures { (fs : List DeclaredFile) (s : Sight) → result ≡ list_all (passes (world_of fs (map declaration_view row.now) s) is_enum) (type_names_view names) }
{
    match names {
        TypeNames::None => true,
        TypeNames::One(found) => is_enum(row, found),
        TypeNames::Two(input, output) => each(is_enum(row, input), is_enum(row, output)),
    }
}

/// Whether the types that were found are messages and no entries.
fn are_plain_messages(row: &[Declaration], names: TypeNames) -> bool
    ensures { (fs : List DeclaredFile) (s : Sight)
        → result ≡ list_all (passes (world_of fs (map declaration_view row.now) s) is_message_type) (type_names_view names) }
{
    match names {
        TypeNames::None => true,
        TypeNames::One(found) => is_plain_message(row, found),
        TypeNames::Two(input, output) => {
            each(is_plain_message(row, input), is_plain_message(row, output))
        }
    }
}

/// Whether the types that were found are no enums of files of proto2.
fn are_no_closed_enums(files: &[FileDecl], row: &[Declaration], names: TypeNames) -> bool
    ensures { (s : Sight)
        → result ≡ list_all (passes_declared (world_of (map file_view files.now) (map declaration_view row.now) s) (is_open (map file_view files.now)))
        (type_names_view names) }
{
    match names {
        TypeNames::None => true,
        TypeNames::One(found) => is_no_closed_enum(files, row, found),
        TypeNames::Two(input, output) => each(
            is_no_closed_enum(files, row, input),
            is_no_closed_enum(files, row, output),
        ),
    }
}

/// Whether the types that were found are no entries.
pub(crate) fn are_no_entries(row: &[Declaration], names: TypeNames) -> bool
    ensures { (fs : List DeclaredFile) (s : Sight)
        → result ≡ list_all (passes (world_of fs (map declaration_view row.now) s) is_not_entry) (type_names_view names) }
{
    match names {
        TypeNames::None => true,
        TypeNames::One(found) => is_no_entry(row, found),
        TypeNames::Two(input, output) => each(is_no_entry(row, input), is_no_entry(row, output)),
    }
}

/// Whether each type name is declared.
pub(crate) fn are_found(names: TypeNames) -> bool
    ensures { result ≡ not (list_any (is_same_fault not_found) (type_names_view names)) }
{
    match names {
        TypeNames::None => true,
        TypeNames::One(found) => found != Found::NotFound,
        TypeNames::Two(input, output) => input != Found::NotFound && output != Found::NotFound,
    }
}

/// Whether no type name means a type that the file does not see.
pub(crate) fn are_visible(names: TypeNames) -> bool
    ensures { result ≡ not (list_any (is_same_fault not_visible) (type_names_view names)) }
{
    match names {
        TypeNames::None => true,
        TypeNames::One(found) => found != Found::NotVisible,
        TypeNames::Two(input, output) => input != Found::NotVisible && output != Found::NotVisible,
    }
}

/// Whether no type name means something that is not a type.
pub(crate) fn are_types(names: TypeNames) -> bool
    ensures { result ≡ not (list_any (is_same_fault not_a_type) (type_names_view names)) }
{
    match names {
        TypeNames::None => true,
        TypeNames::One(found) => found != Found::NotAType,
        TypeNames::Two(input, output) => input != Found::NotAType && output != Found::NotAType,
    }
}

fn is_packable_code(code: TypeCode) -> bool
    ensures { result ≡ is_packable_code code }
{
    match code {
        TypeCode::Text | TypeCode::Group | TypeCode::Message | TypeCode::Bytes => false,
        TypeCode::Double
        | TypeCode::Float
        | TypeCode::Int64
        | TypeCode::Uint64
        | TypeCode::Int32
        | TypeCode::Fixed64
        | TypeCode::Fixed32
        | TypeCode::Bool
        | TypeCode::Uint32
        | TypeCode::Enum
        | TypeCode::Sfixed32
        | TypeCode::Sfixed64
        | TypeCode::Sint32
        | TypeCode::Sint64 => true,
    }
}

/// Whether the field is of a packable kind.
fn is_packable(row: &[Declaration], names: TypeNames, field: &FieldDecl) -> bool
    ensures { (fs : List DeclaredFile) (s : Sight) (d : DeclarationView) → type_names_view names ≡ lookups (world_of fs (map declaration_view row.now) s) d
        → result ≡ is_packable (world_of fs (map declaration_view row.now) s) d (field_view field.now) }
{
    match field.ty {
        Some(code) => is_packable_code(code),
        None => both(field.type_name.is_some(), are_enums(row, names)),
    }
}

/// Whether `packed = true` is set only on a repeated field of a packable kind.
pub(crate) fn is_packed_right(row: &[Declaration], names: TypeNames, field: &FieldDecl) -> bool
    ensures { (fs : List DeclaredFile) (s : Sight) (d : DeclarationView) → type_names_view names ≡ lookups (world_of fs (map declaration_view row.now) s) d
        → result ≡ is_packed_right (world_of fs (map declaration_view row.now) s) d (field_view field.now) }
{
    if field.packed != Some(true) {
        return true;
    }
    both(field.repeated, is_packable(row, names, field))
}

/// Whether the field's type number and type name agree.
pub(crate) fn is_type_right(
    row: &[Declaration],
    names: TypeNames,
    field: &FieldDecl,
    proto2: bool,
) -> bool
    ensures { (fs : List DeclaredFile) (s : Sight) (d : DeclarationView) → proto2 ≡ is_two fs d.file
        → type_names_view names ≡ lookups (world_of fs (map declaration_view row.now) s) d
        → result ≡ is_type_right (world_of fs (map declaration_view row.now) s) d (field_view field.now) }
{
    let is_named = field.type_name.is_some();
    let Some(code) = field.ty else {
        return is_named;
    };
    match code {
        TypeCode::Group => both(proto2, both(is_named, are_plain_messages(row, names))),
        TypeCode::Message => both(is_named, are_messages(row, names)),
        TypeCode::Enum => both(is_named, are_enums(row, names)),
        TypeCode::Double
        | TypeCode::Float
        | TypeCode::Int64
        | TypeCode::Uint64
        | TypeCode::Int32
        | TypeCode::Fixed64
        | TypeCode::Fixed32
        | TypeCode::Bool
        | TypeCode::Text
        | TypeCode::Bytes
        | TypeCode::Uint32
        | TypeCode::Sfixed32
        | TypeCode::Sfixed64
        | TypeCode::Sint32
        | TypeCode::Sint64 => !is_named,
    }
}

/// Whether a field is of no enum of a file of proto2, or may be.
pub(crate) fn is_enum_right(
    files: &[FileDecl],
    row: &[Declaration],
    names: TypeNames,
    may_be_closed: bool,
) -> bool
    ensures { (s : Sight) (d : DeclarationView) → may_be_closed ≡ (is_two (map file_view files.now) d.file && not (is_of_entry d.item))
        → type_names_view names ≡ lookups (world_of (map file_view files.now) (map declaration_view row.now) s) d
        → result ≡ is_enum_right (world_of (map file_view files.now) (map declaration_view row.now) s) d }
{
    either(may_be_closed, are_no_closed_enums(files, row, names))
}
