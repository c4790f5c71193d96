//! Symbols as declarations (Protocol Buffers Language Specification, Proto2 and Proto3). A reader takes symbols from an index on, and gives what they mean with
//! the index after them, or the symbol that it refuses.

mod declared;
mod enums;
mod extensions;
mod fields;
mod files;
mod groups;
mod kinds;
mod messages;
mod plain;
mod scopes;
mod services;
mod statement;
mod syntaxes;

pub(crate) use files::file;
