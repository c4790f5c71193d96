//! Names and rules of declarations, and the pools that they make.
//!
//! ```rust
//! use pb_link::link;
//! use pb_schema::{MessageId, Pool};
//! use pb_source::parse;
//! use std::alloc::Global;
//! use std::test::Fail;
//!
//! /// The types of a source that imports nothing.
//! fn types(alloc: Global, source: &str) -> Result<Pool, Fail> {
//!     let file = parse(alloc, "m.proto", source.as_bytes())?;
//!     let pool = link(alloc, &[file])?; // or the file, the declaration and the cause
//!     Ok(pool)
//! }
//!
//! fn first_call(rt: HostRuntime) -> Result<(), Fail> {
//!     let pool = types(
//!         rt.alloc(),
//!         "syntax = \"proto3\"; message M { M inner = 1; }",
//!     )?;
//!     assert!(rt; pool.message_by_name("M") == Some(MessageId(0)));
//!     Ok(())
//! }
//! ```
#![tactic(auto)]

mod declaring;
pub mod laws;
mod linking;
mod pools;
mod resolving;

pub use declaring::to_decls;
pub use linking::link;
pub use pb_link_rules::{LinkCause, LinkError};
pub use resolving::enum_maps::without_enum_maps;
pub use resolving::resolve;
