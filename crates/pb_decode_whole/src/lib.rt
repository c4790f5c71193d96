//! Builds a message from input that is completely in memory, by recursion over its payloads.
//!
//! A `Reader` holds what stays the same, and an `AtTag` is where a record begins: its tag, the bytes from it on, and what is left of
//! the part around it. Each method `read_..` puts the record at a tag into a part and returns how many bytes it takes: `records` has
//! those of all records, messages and groups, the other files those of one kind each.
//!
//! An inner crate. `pb_decode` calls `build` first. It reads each message that is completely in a piece by `read_records`, and each such
//! map entry by `read_entry`.
#![tactic(auto)]

mod elements;
mod entries;
mod heap;
mod messages;
pub mod reader;
mod records;
mod scalars;
pub mod tokens;
pub mod whole;

pub use whole::build;
