//! The rules of indexes: each names something.

ghost use Rattle.std.specs.Prelude.{◌↔◌, ◌<◌, IsTrue, map, length};
ghost use Rattle.pb_schema.specs.View.{file_view, message_view, enum_view, parent_view};
ghost use Rattle.pb_schema.specs.Rules.{MessagesHaveFiles, EnumsHaveFiles, NamesType, KindsNameTypes, NamesOneof, MembersNameOneofs};
ghost use Rattle.pb_schema.specs.Rules.{IsInFileOfParent, MessagesShareFileWithParent, EnumsShareFileWithParent};

use crate::rules::each_field::{FieldRule, each_field};
use crate::types::{EnumType, Field, FileInfo, Kind, MessageId, MessageType, Shape};

pub(crate) fn messages_have_files(files: &[FileInfo], messages: &[MessageType]) -> bool
    ensures { IsTrue result ↔ MessagesHaveFiles (map file_view files.now) (map message_view messages.now) }
{
    for message in messages {
        if message.file >= files.len() {
            return false;
        }
    }
    true
}

pub(crate) fn enums_have_files(files: &[FileInfo], enums: &[EnumType]) -> bool
    ensures { IsTrue result ↔ EnumsHaveFiles (map file_view files.now) (map enum_view enums.now) }
{
    for entry in enums {
        if entry.file >= files.len() {
            return false;
        }
    }
    true
}

fn is_in_file_of_parent(messages: &[MessageType], file: usize, parent: Option<MessageId>) -> bool
    ensures { IsTrue result ↔ IsInFileOfParent (map message_view messages.now) file (parent_view parent) }
{
    match parent {
        None => true,
        Some(id) => match messages.get(id.0) {
            None => false,
            Some(message) => message.file == file,
        },
    }
}

pub(crate) fn messages_share_file_with_parent(messages: &[MessageType]) -> bool
    ensures { IsTrue result ↔ MessagesShareFileWithParent (map message_view messages.now) }
{
    for message in messages {
        if !is_in_file_of_parent(messages, message.file, message.parent) {
            return false;
        }
    }
    true
}

pub(crate) fn enums_share_file_with_parent(messages: &[MessageType], enums: &[EnumType]) -> bool
    ensures { IsTrue result ↔ EnumsShareFileWithParent (map message_view messages.now) (map enum_view enums.now) }
{
    for entry in enums {
        if !is_in_file_of_parent(messages, entry.file, entry.parent) {
            return false;
        }
    }
    true
}

/// The kind names one of this many messages or enums.
#[derive(Drop)]
struct NamesKnownType {
    messages: usize,
    enums: usize,
}

impl FieldRule for NamesKnownType {
    ghost Holds = { λ counts t f. NamesType counts.messages counts.enums f.kind };

    fn holds(&self, _message: &MessageType, field: &Field) -> bool {
        match field.kind {
            Kind::Enum(id) => id.0 < self.enums,
            Kind::ClosedEnum(id) => id.0 < self.enums,
            Kind::Message(id) => id.0 < self.messages,
            Kind::Group(id) => id.0 < self.messages,
            Kind::Double
            | Kind::Float
            | Kind::Int64
            | Kind::Uint64
            | Kind::Int32
            | Kind::Fixed64
            | Kind::Fixed32
            | Kind::Bool
            | Kind::Text
            | Kind::Bytes
            | Kind::Uint32
            | Kind::Sfixed32
            | Kind::Sfixed64
            | Kind::Sint32
            | Kind::Sint64 => true,
        }
    }
}

pub(crate) fn kinds_name_types(messages: &[MessageType], enums: &[EnumType]) -> bool
    ensures { IsTrue result ↔ KindsNameTypes (map message_view messages.now) (map enum_view enums.now) }
{
    each_field(
        &NamesKnownType {
            messages: messages.len(),
            enums: enums.len(),
        },
        messages,
    )
}

/// A member of a oneof names one of its message.
struct NamesOwnOneof;

impl FieldRule for NamesOwnOneof {
    ghost Holds = { λ _ t f. NamesOneof (length t.oneofs) f.shape };

    fn holds(&self, message: &MessageType, field: &Field) -> bool {
        match field.shape {
            Shape::OneofMember(index) => (index as usize) < message.oneofs.len(),
            Shape::Implicit | Shape::Explicit | Shape::List { packed: _ } | Shape::Map { key: _ } =>
                true,
        }
    }
}

pub(crate) fn members_name_oneofs(messages: &[MessageType]) -> bool
    ensures { IsTrue result ↔ MembersNameOneofs (map message_view messages.now) }
{
    each_field(&NamesOwnOneof, messages)
}
