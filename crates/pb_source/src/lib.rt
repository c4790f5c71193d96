//! Sources of proto2 and proto3: which file a source declares, read strictly (`parse`, proto3 alone) or leniently (`parse_lenient`). Its tokens and the
//! readers of single lines are in `pb_source_tokens`.
//!
//! ```rust
//! use pb_source::parse;
//! use std::alloc::Global;
//! use std::test::Fail;
//!
//! /// How many messages a source declares, or where it fails and why.
//! fn outcome(alloc: Global, source: &str) -> Result<String, Fail> {
//!     match parse(alloc, "m.proto", source.as_bytes()) {
//!         Ok(file) => Ok(format!(in alloc; "{} messages", file.messages.len())?),
//!         Err(fault) => Ok(format!(in alloc; "{} at byte {}", fault.cause, fault.byte)?),
//!     }
//! }
//!
//! fn first_call(rt: HostRuntime) -> Result<(), Fail> {
//!     let good = outcome(
//!         rt.alloc(),
//!         "syntax = \"proto3\"; message M { int32 a = 1; }",
//!     )?;
//!     let bad = outcome(
//!         rt.alloc(),
//!         "syntax = \"proto3\"; message M { required int32 a = 1; }",
//!     )?;
//!     assert!(rt; good.as_str() == "1 messages" && bad.as_str() == "Unexpected at byte 31");
//!     Ok(())
//! }
//! ```
#![tactic(auto)]

mod kind;
pub mod laws;
mod parsing;
pub mod reading;
mod source;

pub use pb_source_tokens::{SourceCause, SourceFault, Token, TokenKind, lex};
pub use source::{parse, parse_lenient};
