//! The rules of the syntax of files: where groups and closed enums are allowed, which fields are implicit, first values of enums.

ghost use Rattle.std.specs.Prelude.{◌≡◌, ◌↔◌, IsTrue, IfSome, map, slice_get, string_bytes};
ghost use Rattle.pb_schema.specs.View.{file_view, message_view, enum_view, types_of};
ghost use Rattle.pb_schema.specs.Types.{is_proto2};
ghost use Rattle.pb_schema.specs.Rules.{IsNotImplicit, MayStandIn, FieldsGoWithSyntax, EnumIsRight, EnumsGoWithSyntax};
ghost use Rattle.pb_schema.specs.Rules.{BeginsRight, EnumsBeginRight, SyntaxRules};

use crate::rules::each_field::{FieldRule, each_field};
use crate::types::{EnumId, EnumType, Field, FileInfo, Kind, MessageType, Shape};

/// The file at an index is of the syntax proto2.
fn is_proto2(files: &[FileInfo], file: usize) -> bool
    ensures { result ≡ is_proto2 (map file_view files.now) file }
{
    match files.get(file) {
        Some(info) => info.proto2,
        None => false,
    }
}

/// A field of the shape says whether it is set.
fn is_not_implicit(shape: Shape) -> bool
    ensures { IsTrue result ↔ IsNotImplicit shape }
{
    match shape {
        Shape::Implicit => false,
        Shape::Explicit
        | Shape::OneofMember(_)
        | Shape::List { packed: _ }
        | Shape::Map { key: _ } => { true }
    }
}

/// A field of this shape and kind may be in a file of proto2, or in one of proto3.
fn may_stand_in(proto2: bool, shape: Shape, kind: Kind) -> bool
    ensures { IsTrue result ↔ MayStandIn proto2 shape kind }
{
    if proto2 {
        is_not_implicit(shape)
    } else {
        !kind.is_of_proto2()
    }
}

#[derive(Drop)]
struct GoesWithSyntax<'a> {
    files: &'a [FileInfo],
}

impl FieldRule for GoesWithSyntax<'_> {
    ghost Holds = { λ rule t f. MayStandIn (is_proto2 (map file_view rule.files.now) t.file) f.shape f.kind };

    fn holds(&self, message: &MessageType, field: &Field) -> bool {
        may_stand_in(is_proto2(self.files, message.file), field.shape, field.kind)
    }
}

pub(crate) fn fields_go_with_syntax(files: &[FileInfo], messages: &[MessageType]) -> bool
    ensures { IsTrue result ↔ FieldsGoWithSyntax (map file_view files.now) (map message_view messages.now) }
{
    each_field(&GoesWithSyntax { files }, messages)
}

#[derive(Drop)]
struct HasRightEnum<'a> {
    files: &'a [FileInfo],
    enums: &'a [EnumType],
}

/// The enum at an index, if there is one, is in a file of proto2, or in none.
fn enum_is_of(files: &[FileInfo], enums: &[EnumType], index: EnumId, proto2: bool) -> bool
    ensures { IsTrue result ↔ IfSome (slice_get (map enum_view enums.now) index.0) (λ t. is_proto2 (map file_view files.now) t.file ≡ proto2) }
{
    match enums.get(index.0) {
        Some(entry) => is_proto2(files, entry.file) == proto2,
        None => true,
    }
}

impl FieldRule for HasRightEnum<'_> {
    ghost Holds = { λ rule _ f. EnumIsRight (map file_view rule.files.now) (map enum_view rule.enums.now) f.kind };

    fn holds(&self, _message: &MessageType, field: &Field) -> bool {
        match field.kind {
            Kind::Enum(index) => enum_is_of(self.files, self.enums, index, false),
            Kind::ClosedEnum(index) => enum_is_of(self.files, self.enums, index, true),
            Kind::Double
            | Kind::Float
            | Kind::Int64
            | Kind::Uint64
            | Kind::Int32
            | Kind::Fixed64
            | Kind::Fixed32
            | Kind::Bool
            | Kind::Text
            | Kind::Bytes
            | Kind::Uint32
            | Kind::Sfixed32
            | Kind::Sfixed64
            | Kind::Sint32
            | Kind::Sint64
            | Kind::Message(_)
            | Kind::Group(_) => true,
        }
    }
}

pub(crate) fn enums_go_with_syntax(
    files: &[FileInfo],
    messages: &[MessageType],
    enums: &[EnumType],
) -> bool
    ensures { IsTrue result ↔ EnumsGoWithSyntax (map file_view files.now) (map enum_view enums.now) (map message_view messages.now) }
{
    each_field(&HasRightEnum { files, enums }, messages)
}

/// The values begin as those of an enum do in a file of proto2, or of proto3.
fn begins_right(proto2: bool, values: &[(String, i32)]) -> bool
    ensures { IsTrue result ↔ BeginsRight proto2 (map (λ v. (string_bytes v.0, v.1)) values.now) }
{
    match values.first() {
        Some((_, number)) => proto2 || *number == 0,
        None => false,
    }
}

/// The values of an enum begin as its file's syntax says.
fn enum_begins_right(files: &[FileInfo], entry: &EnumType) -> bool
    ensures { IsTrue result ↔ BeginsRight (is_proto2 (map file_view files.now) entry.now.file) (map (λ v. (string_bytes v.0, v.1)) entry.now.values.items) }
{
    begins_right(is_proto2(files, entry.file), &entry.values)
}

pub(crate) fn enums_begin_right(files: &[FileInfo], enums: &[EnumType]) -> bool
    ensures { IsTrue result ↔ EnumsBeginRight (map file_view files.now) (map enum_view enums.now) }
{
    for entry in enums {
        if !enum_begins_right(files, entry) {
            return false;
        }
    }
    true
}

pub(crate) fn syntax_rules_hold(
    files: &[FileInfo],
    messages: &[MessageType],
    enums: &[EnumType],
) -> bool
    ensures { IsTrue result ↔ SyntaxRules (types_of files.now messages.now enums.now) }
{
    fields_go_with_syntax(files, messages)
        && enums_go_with_syntax(files, messages, enums)
        && enums_begin_right(files, enums)
}
