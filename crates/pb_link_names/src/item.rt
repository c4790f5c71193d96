//! The entries of the list of declarations.

use pb_declarations::{EnumDecl, FieldDecl, FileDecl, MessageDecl, MethodDecl, ServiceDecl};

/// What is declared, with what is declared around it where a rule needs that.
#[derive(Clone, Copy)]
pub enum Item<'a> {
    File(&'a FileDecl),
    Message(&'a MessageDecl),
    /// The field at an index of a message.
    Field(&'a MessageDecl, usize, &'a FieldDecl),
    /// The oneof at an index of a message.
    Oneof(&'a MessageDecl, usize, &'a String),
    Enum(&'a EnumDecl),
    /// The value at an index of an enum.
    Value(&'a EnumDecl, usize, &'a (String, i32)),
    Service(&'a ServiceDecl),
    Method(&'a MethodDecl),
}
