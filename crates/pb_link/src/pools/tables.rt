//! Kinds by place.

ghost use Rattle.std.specs.Prelude.{◌≡◌, ◌+◌, ◌<◌, ◌^◌, map, option_map, slice_get, IfOk};
ghost use Rattle.std.specs.Option.{option_map_or};
ghost use Rattle.pb_schema.specs.declared.types.Kind.TheVariants as kind;
ghost use Rattle.pb_declarations.specs.View.{file_view};
ghost use Rattle.pb_link_rules.specs.Rules.{is_enum, is_group, is_message_type, is_two};
ghost use Rattle.pb_link.specs.PoolOf.{kind_of_code, enum_kind, grouped};
ghost use Rattle.pb_link_names.specs.View.{declaration_view};
ghost use Rattle.pb_link.specs.Pools.{kind_of_number, kind_here, kinds_from, one_if, place_named, kind_read, is_read_two, parent_read};

use pb_declarations::{FileDecl, TypeCode};
use pb_link_names::declaration::Declaration;
use pb_link_names::found::{Found, TypeNames};
use pb_link_names::item::Item;
use pb_link_rules::rules::kinds::is_two;
use pb_link_rules::rules::maps::is_group;
use pb_schema::{EnumId, Kind, MessageId};
use std::alloc::{AllocError, Global};

/// What the parts of a pool are read from, by place.
#[derive(Drop)]
pub(crate) struct Tables<'a> {
    pub(crate) files: &'a [FileDecl],
    pub(crate) row: &'a [Declaration<'a>],
    /// What the type names of each declaration came to.
    pub(crate) found: &'a [TypeNames],
    /// The kind of each type; of what is no type `Bool`.
    pub(crate) kinds: Vec<Kind>,
}

/// The kind of a scalar's type number; of a number that says nothing alone `Bool`.
fn kind_of_code(code: TypeCode) -> Kind
    ensures { result ≡ kind_of_code code }
{
    match code {
        TypeCode::Double => Kind::Double,
        TypeCode::Float => Kind::Float,
        TypeCode::Int64 => Kind::Int64,
        TypeCode::Uint64 => Kind::Uint64,
        TypeCode::Int32 => Kind::Int32,
        TypeCode::Fixed64 => Kind::Fixed64,
        TypeCode::Fixed32 => Kind::Fixed32,
        TypeCode::Text => Kind::Text,
        TypeCode::Bytes => Kind::Bytes,
        TypeCode::Uint32 => Kind::Uint32,
        TypeCode::Sfixed32 => Kind::Sfixed32,
        TypeCode::Sfixed64 => Kind::Sfixed64,
        TypeCode::Sint32 => Kind::Sint32,
        TypeCode::Sint64 => Kind::Sint64,
        TypeCode::Bool | TypeCode::Group | TypeCode::Message | TypeCode::Enum => Kind::Bool,
    }
}

pub(crate) fn kind_of_number(code: Option<TypeCode>) -> Kind
    ensures { result ≡ kind_of_number code }
{
    match code {
        Some(code) => kind_of_code(code),
        None => Kind::Bool,
    }
}

/// The kind of an enum, by whether its file is of proto2.
fn enum_kind(proto2: bool, index: usize) -> Kind
    ensures { result ≡ enum_kind proto2 index }
{
    if proto2 {
        Kind::ClosedEnum(EnumId(index))
    } else {
        Kind::Enum(EnumId(index))
    }
}

/// The kind of a declaration that follows `messages` message types and `enums` enums.
fn kind_here(
    files: &[FileDecl],
    declaration: &Declaration<'_>,
    messages: usize,
    enums: usize,
) -> Kind
    ensures { result ≡ kind_here
        (is_two (map file_view files.now) (declaration_view declaration.now).file) messages enums
        (declaration_view declaration.now).item }
{
    match declaration.item {
        Item::Message(_) => Kind::Message(MessageId(messages)),
        Item::Enum(_) => enum_kind(is_two(files, declaration.file), enums),
        Item::File(_)
        | Item::Field(_, _, _)
        | Item::Oneof(_, _, _)
        | Item::Value(_, _, _)
        | Item::Service(_)
        | Item::Method(_) => Kind::Bool,
    }
}

fn is_message_type(declaration: &Declaration<'_>) -> bool
    ensures { result ≡ is_message_type (declaration_view declaration.now).item }
{
    match declaration.item {
        Item::Message(message) => !message.map_entry,
        _ => false,
    }
}

fn is_enum(declaration: &Declaration<'_>) -> bool
    ensures { result ≡ is_enum (declaration_view declaration.now).item }
{
    matches!(declaration.item, Item::Enum(_))
}

/// One more, where that is so.
fn one_if(is: bool, count: usize) -> usize
    requires small { count + 1 < 2 ^ 64 }
    ensures { result ≡ one_if is count }
{
    if is { count + 1 } else { count }
}

/// The kinds of all types.
pub(crate) fn kinds(
    alloc: Global,
    files: &[FileDecl],
    row: &[Declaration<'_>],
) -> Result<Vec<Kind>, AllocError>
    ensures { IfOk result (λ v. v.items ≡ kinds_from (map file_view files.now) 0 0
        (map declaration_view row.now)) }
{
    let mut kinds: Vec<Kind> = Vec::with_capacity(alloc, row.len())?;
    let mut messages: usize = 0;
    let mut enums: usize = 0;
    for place in 0..row.len() {
        let declaration = &row[place];
        kinds.push(kind_here(files, declaration, messages, enums))?;
        messages = one_if(is_message_type(declaration), messages);
        enums = one_if(is_enum(declaration), enums);
    }
    Ok(kinds)
}

/// The place of the type that the declaration at an index names.
pub(crate) fn place_named(names: &[TypeNames], index: usize) -> Option<usize>
    ensures { result ≡ place_named names.now index }
{
    match names.get(index) {
        Some(TypeNames::One(Found::Type(place))) => Some(*place),
        Some(TypeNames::Two(Found::Type(place), _)) => Some(*place),
        _ => None,
    }
}

/// A message's kind as that of a group, where it is one; any other stays.
fn grouped(is_group: bool, kind: Kind) -> Kind
    ensures { result ≡ grouped is_group kind }
{
    if !is_group {
        return kind;
    }
    match kind {
        Kind::Message(message) => Kind::Group(message),
        other => other,
    }
}

impl Tables<'_> {
    /// The kind of the type at a place.
    fn kind_at(&self, place: usize) -> Kind
        ensures { result ≡ option_map_or (λ k. k) (slice_get self.now.kinds.items place) kind.Bool }
    {
        match self.kinds.get(place) {
            Some(kind) => *kind,
            None => Kind::Bool,
        }
    }

    /// The kind of a field that names the type at a place, if it names one.
    pub(crate) fn kind(&self, place: Option<usize>, code: Option<TypeCode>) -> Kind
        ensures { result ≡ kind_read self.now place code }
    {
        let Some(place) = place else {
            return kind_of_number(code);
        };
        grouped(is_group(code), self.kind_at(place))
    }

    /// Whether the file of an index is of proto2.
    pub(crate) fn is_two(&self, file: usize) -> bool
        ensures { result ≡ is_read_two self.now file }
    {
        is_two(self.files, file)
    }

    /// The message at a place.
    pub(crate) fn parent(&self, place: usize) -> Option<MessageId>
        ensures { option_map (λ m. m.0) result ≡ parent_read self.now place }
    {
        match self.kinds.get(place) {
            Some(Kind::Message(message)) => Some(*message),
            _ => None,
        }
    }
}
