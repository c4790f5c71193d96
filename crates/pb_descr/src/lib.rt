//! Descriptor sets: what the files of a set declare, read and written.
//!
//! ```rust
//! use pb_descr::{read_set, write_set};
//! use std::test::Fail;
//!
//! /// The descriptor set of m.proto: message M { int32 a = 1; }
//! const SET: &[u8] =
//!     b"\x0a\x21\x0a\x07m.proto\x22\x0e\x0a\x01M\x12\x09\x0a\x01a\x18\x01\x20\x01\x28\x05\x62\x06proto3";
//!
//! fn first_call(rt: HostRuntime) -> Result<(), Fail> {
//!     let files = read_set(rt.alloc(), SET)?; // what each file declares, or why the bytes are no set
//!     let written = write_set(rt.alloc(), &files)?;
//!     assert!(rt; files.len() == 1 && written.as_slice() == SET);
//!     Ok(())
//! }
//! ```
#![tactic(auto)]

mod lenient;
mod reading;
mod writing;

pub use lenient::{LenientSet, read_set_lenient};
pub use pb_declarations::{
    EnumDecl, FieldDecl, FileDecl, MessageDecl, MethodDecl, ServiceDecl, TypeCode,
};
pub use pb_descr_message::{
    DeclCause, DescrError, Omitted, OmittedPart, WriteSetError, descriptor_pool, laws,
};
pub use reading::read_set;
pub use writing::write_set;
