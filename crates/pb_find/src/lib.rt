//! One scalar of a message, read from its bytes.
//!
//! ```rust
//! use pb_find::{ScalarRef, find};
//! use pb_schema::Pool;
//! use pb_wire::Limits;
//! use std::alloc::Global;
//! use std::test::Fail;
//!
//! /// The int32 field 1 of the message in field 3 of a message of type T.
//! fn find_number(alloc: Global, pool: &Pool, bytes: &[u8]) -> Result<Option<i32>, Fail> {
//!     let message_type = pool.message_by_name("T").ok_or("no type T")?;
//!     match find(alloc, pool, message_type, bytes, Limits::FULL, &[3, 1])? {
//!         Some(ScalarRef::I32(number)) => Ok(Some(number)),
//!         _ => Ok(None), // absent
//!     }
//! }
//! ```
#![tactic(auto)]

mod finding;
pub mod laws;
mod level;
mod passing;
mod reading;
mod scalar_ref;
mod walking;

pub use finding::find;
pub use scalar_ref::ScalarRef;
