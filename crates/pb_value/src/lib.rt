//! Dynamic messages: what a message is, what its records mean, and every change exact.
//!
//! ```rust
//! use pb_schema::Pool;
//! use pb_value::{Content, DynamicMessage, Value};
//! use std::alloc::Global;
//! use std::test::Fail;
//!
//! /// Sets the int32 field 1 of a new message, and reads it.
//! fn set_and_get(alloc: Global, pool: &Pool) -> Result<i32, Fail> {
//!     let message_type = pool.message_by_name("a.b.T").ok_or("no type a.b.T")?;
//!     let mut message = DynamicMessage::new(alloc, pool, message_type);
//!     message.set(1, Content::One(Value::I32(5)))?; // or why not, and the message as it was
//!     match message.get(1) {
//!         Some(Content::One(Value::I32(number))) => Ok(*number),
//!         _ => Ok(0),
//!     }
//! }
//! ```
#![tactic(auto)]

pub mod bodies;
mod body;
mod change;
mod changing;
mod dynamic;
mod error;
mod full_name;
mod judge;
pub mod laws;
mod lookup;
mod merge;
mod message_ref;

pub use body::{Body, Content, MapKey, Value};
pub use changing::Change;
pub use dynamic::{DynamicMessage, default_value};
pub use error::ValueError;
pub use message_ref::MessageRef;
