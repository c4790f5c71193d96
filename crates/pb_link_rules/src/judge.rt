//! The least rule that fails at a declaration.

ghost use Rattle.std.specs.Prelude.{◌≡◌, ◌&&◌, ◌<◌, ℕ, map, not};
ghost use Rattle.pb_declarations.specs.View.{field_view, file_view, message_view};
ghost use Rattle.pb_link_names.specs.Declarations.{head_of};
ghost use Rattle.pb_link_names.specs.ItemView.{item_view};
ghost use Rattle.pb_link_names.specs.Sees.{Sight};
ghost use Rattle.pb_link_names.specs.Marks.{marks_of};
ghost use Rattle.pb_link_rules.specs.Rules.{name_is_right};
ghost use Rattle.pb_link_rules.specs.Judging.{first_failing, world_of};
ghost use Rattle.pb_link_rules.specs.Link.{first_cause};
ghost use Rattle.pb_link_rules.specs.Tables.{TellsAt};
ghost use Rattle.pb_link_names.specs.View.{declaration_view};

use crate::cause::LinkCause;
use crate::names::At;
use crate::rules::kinds::{
    are_found, are_messages, are_types, are_visible, is_enum_right, is_packed_right, is_two,
    is_type_right,
};
use crate::rules::numbers::{begins_right, is_field_number};
use pb_declarations::{FieldDecl, FileDecl, MessageDecl};
use pb_link_names::declaration::Declaration;
use pb_link_names::item::Item;
use pb_link_names::marks::Marks;
use pb_schema::{is_package, is_word};

/// The first cause whose rule does not hold.
fn first_failing(rules: &[(LinkCause, bool)]) -> Option<LinkCause>
    ensures { result ≡ first_failing rules.now }
{
    for rule in rules {
        if !rule.1 {
            return Some(rule.0);
        }
    }
    None
}

/// What the rules come to that rest on what is declared beside it.
fn marks_of(declaration: &Declaration) -> Marks
    ensures { result ≡ marks_of (item_view declaration.now.item) }
{
    declaration.marks
}

/// Whether the declaration's name is a word, where it has one; a file's name is not empty, and its package is one.
fn name_is_right(declaration: &Declaration) -> bool
    ensures { result ≡ name_is_right (item_view declaration.now.item) }
{
    let marks = marks_of(declaration);
    match declaration.item {
        Item::File(file) => {
            !file.name.is_empty() && is_package(file.package.as_str().as_bytes())
        }
        Item::Message(message) => is_word(message.name.as_str().as_bytes()),
        Item::Field(_, _, field) => is_word(field.name.as_str().as_bytes()),
        Item::Oneof(_, _, name) => !marks.is_named || is_word(name.as_str().as_bytes()),
        Item::Enum(entry) => is_word(entry.name.as_str().as_bytes()),
        Item::Value(_, _, value) => is_word(value.0.as_str().as_bytes()),
        Item::Service(service) => is_word(service.name.as_str().as_bytes()),
        Item::Method(method) => is_word(method.name.as_str().as_bytes()),
    }
}

/// Whether the rules of oneofs hold at a field, by whether they do beside its file's syntax.
fn may_be_member(proto2: bool, field: &FieldDecl, is_right: bool) -> bool
    ensures { result ≡ (not ((field_view field.now).is_optional && proto2) && is_right) }
{
    !(field.proto3_optional && proto2) && is_right
}

/// Whether a field of a message may be of an enum of a file of proto2.
fn may_be_closed(proto2: bool, message: &MessageDecl) -> bool
    ensures { result ≡ (proto2 && not (head_of (message_view message.now)).is_entry) }
{
    proto2 && !message.map_entry
}

/// The least cause at a declaration, by what the tables hold at its place.
pub(crate) fn judge(
    files: &[FileDecl],
    row: &[Declaration],
    declaration: &Declaration,
    at: At,
) -> Option<LinkCause>
    ensures { (s : Sight) (place : ℕ)
        → TellsAt (world_of (map file_view files.now) (map declaration_view row.now) s) place (declaration_view declaration.now) at
        → result ≡ first_cause (world_of (map file_view files.now) (map declaration_view row.now) s) place (declaration_view declaration.now) }
{
    let name_is_right = name_is_right(declaration);
    let marks = marks_of(declaration);
    let proto2 = is_two(files, declaration.file);
    match declaration.item {
        Item::File(_) => first_failing(&[
            (LinkCause::TwoFiles, at.file_is_first),
            (LinkCause::MissingImport, at.imports_are_there),
            (LinkCause::ImportCycle, at.reaches_no_cycle),
            (LinkCause::BadName, name_is_right),
        ]),
        Item::Message(_) => first_failing(&[
            (LinkCause::BadName, name_is_right),
            (LinkCause::NameTaken, at.is_free),
            (LinkCause::BadMap, at.is_map_right),
            (LinkCause::BadRange, marks.ranges_are_right),
        ]),
        Item::Field(message, _, field) => first_failing(&[
            (LinkCause::BadName, name_is_right),
            (LinkCause::NameTaken, at.is_free),
            (LinkCause::NotFound, are_found(at.found)),
            (LinkCause::NotVisible, are_visible(at.found)),
            (LinkCause::NotAType, are_types(at.found)),
            (LinkCause::BadNumber, is_field_number(field.number)),
            (LinkCause::NumberTaken, marks.number_is_free),
            (LinkCause::Reserved, marks.is_not_reserved),
            (
                LinkCause::BadOneof,
                may_be_member(proto2, field, marks.is_oneof_right),
            ),
            (LinkCause::BadMap, at.is_map_right),
            (LinkCause::BadPacked, is_packed_right(row, at.found, field)),
            (
                LinkCause::KindMismatch,
                is_type_right(row, at.found, field, proto2),
            ),
            (
                LinkCause::ClosedEnum,
                is_enum_right(files, row, at.found, may_be_closed(proto2, message)),
            ),
        ]),
        Item::Oneof(_, _, _) => first_failing(&[
            (LinkCause::BadName, name_is_right),
            (LinkCause::NameTaken, at.is_free),
            (LinkCause::BadOneof, marks.is_oneof_right),
        ]),
        Item::Enum(entry) => first_failing(&[
            (LinkCause::BadName, name_is_right),
            (LinkCause::NameTaken, at.is_free),
            (LinkCause::BadEnum, begins_right(proto2, entry)),
            (LinkCause::BadRange, marks.ranges_are_right),
        ]),
        Item::Value(_, _, _) => first_failing(&[
            (LinkCause::BadName, name_is_right),
            (LinkCause::NameTaken, at.is_free),
            (LinkCause::NumberTaken, marks.number_is_free),
            (LinkCause::Reserved, marks.is_not_reserved),
        ]),
        Item::Service(_) => first_failing(&[
            (LinkCause::BadName, name_is_right),
            (LinkCause::NameTaken, at.is_free),
        ]),
        Item::Method(_) => first_failing(&[
            (LinkCause::BadName, name_is_right),
            (LinkCause::NameTaken, at.is_free),
            (LinkCause::NotFound, are_found(at.found)),
            (LinkCause::NotVisible, are_visible(at.found)),
            (LinkCause::NotAType, are_types(at.found)),
            (LinkCause::BadMap, at.is_map_right),
            (LinkCause::KindMismatch, are_messages(row, at.found)),
        ]),
    }
}
