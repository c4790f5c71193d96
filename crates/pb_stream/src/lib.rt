//! Messages in a stream, each after its length.
//!
//! ```rust
//! use pb_schema::Pool;
//! use pb_stream::DelimitedReader;
//! use pb_wire::{FailurePlan, Limits, MemInput};
//! use std::alloc::Global;
//! use std::test::Fail;
//!
//! /// How many messages of type T are in a stream, each after its length.
//! fn count(alloc: Global, pool: &Pool, stream: &[u8]) -> Result<u64, Fail> {
//!     let message_type = pool.message_by_name("T").ok_or("no type T")?;
//!     let input = MemInput::new(stream, 4096, FailurePlan::NEVER); // or `ReadInput::new(rt.stdin())`
//!     let mut reader = DelimitedReader::new(alloc, pool, message_type, input, Limits::FULL);
//!     let mut count = 0;
//!     for index in 1..u64::MAX {
//!         if reader.next()?.is_none() {
//!             break;
//!         }
//!         count = index;
//!     }
//!     Ok(count)
//! }
//! ```
#![tactic(auto)]

mod held;
pub mod laws;
mod length;
mod next;
mod passing;
mod reader;
mod reading;
mod skipping;
mod writing;

pub use held::next_held_frame;
pub use next::{NextFrame, Reason, next_frame};
pub use reader::DelimitedReader;
pub use reading::read_delimited;
pub use skipping::pass_frames;
pub use writing::write_delimited;
