//! What files declare: messages, fields, enums and services, as descriptor sets and sources give them (descriptor.proto).
//!
//! Nothing is judged here: numbers, indexes and names are kept as they are written. `pb_descr` reads and writes them as descriptor sets, `pb_source`
//! reads them of sources, and `pb_link` links them.
#![tactic(auto)]

mod decl;

pub use decl::{EnumDecl, FieldDecl, FileDecl, MessageDecl, MethodDecl, ServiceDecl, TypeCode};
