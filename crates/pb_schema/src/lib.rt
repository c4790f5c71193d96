//! Types as data: pools of messages and enums that meet their rules, and what their kinds read and write.
//!
//! ```rust
//! use pb_schema::{Field, FileInfo, Kind, MessageId, MessageType, Pool, Shape};
//! use std::alloc::{AllocError, Global};
//! use std::test::Fail;
//!
//! /// message M { int32 a = 1; }
//! fn message(alloc: Global) -> Result<MessageType, AllocError> {
//!     let a = Field {
//!         name: String::from_str(alloc, "a")?,
//!         number: 1,
//!         kind: Kind::Int32,
//!         shape: Shape::Implicit,
//!     };
//!     Ok(MessageType {
//!         name: String::from_str(alloc, "M")?,
//!         file: 0,
//!         parent: None,
//!         fields: vec![in alloc; a]?,
//!         oneofs: Vec::new(alloc),
//!     })
//! }
//!
//! fn first_call(rt: HostRuntime) -> Result<(), Fail> {
//!     let alloc = rt.alloc();
//!     let files = vec![in alloc; file(alloc)?]?;
//!     let messages = vec![in alloc; message(alloc)?]?;
//!     let pool = Pool::from_parts(alloc, files, messages, Vec::new(alloc))?; // or that they break a rule
//!     assert!(rt; pool.message_by_name("M") == Some(MessageId(0)));
//!     Ok(())
//! }
//! ```
#![tactic(auto)]

mod error;
mod fitting;
mod imports;
mod kinds;
pub mod laws;
mod names;
mod pool;
mod rules;
pub mod scalars;
mod tables;
mod types;

pub use error::PoolError;
pub use fitting::fits;
pub use names::entry_name;
pub use names::set::scoped;
pub use names::words::{is_package, is_word};
pub use pool::Pool;
pub use types::{EnumId, EnumType, Field, FileInfo, Kind, MessageId, MessageType, Shape};
