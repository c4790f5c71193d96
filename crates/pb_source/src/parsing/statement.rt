//! Statements, as they were read.

use pb_declarations::{EnumDecl, FieldDecl, MessageDecl, ServiceDecl, TypeCode};
use pb_source_tokens::parsing::types::TypeSaid;

/// A map: `map < key , value > name = number`.
#[derive(Drop)]
pub(crate) struct MapSaid {
    pub key: TypeCode,
    pub value: TypeSaid,
    pub name: String,
    pub number: u32,
    pub packed: Option<bool>,
}

/// A field, and where it is a group, its message.
#[derive(Drop)]
pub(crate) struct MemberSaid {
    pub field: FieldDecl,
    pub group: Option<MessageDecl>,
}

/// A statement of a message.
#[derive(Drop)]
pub(crate) enum MessageSaid {
    /// An option, or `;` alone.
    Nothing,
    Field(MemberSaid),
    Map(MapSaid),
    Oneof(String, Vec<MemberSaid>),
    Message(MessageDecl),
    /// The messages of the groups in a block of `extend`.
    Extend(Vec<MessageDecl>),
    Enum(EnumDecl),
    Ranges(Vec<(i32, i32)>),
    Names(Vec<String>),
}

/// A statement of an enum.
#[derive(Drop)]
pub(crate) enum EnumSaid {
    /// An option that says nothing of `allow_alias`, or `;` alone.
    Nothing,
    AllowAlias(bool),
    /// Its name and its number.
    Value((String, i32)),
    Ranges(Vec<(i32, i32)>),
    Names(Vec<String>),
}

/// A statement of a file, after the first.
#[derive(Drop)]
pub(crate) enum FileSaid {
    /// An option, or `;` alone.
    Nothing,
    /// Whether it is public, and the file's name.
    Import(bool, String),
    Package(String),
    Message(MessageDecl),
    /// The messages of the groups in a block of `extend`.
    Extend(Vec<MessageDecl>),
    Enum(EnumDecl),
    Service(ServiceDecl),
}
