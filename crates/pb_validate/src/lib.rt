//! Whether bytes are a message of a type, without building it.
//!
//! The bytes are read where they lie, by recursion over what nests in them. No memory is taken but for the path of a fault.
//!
//! An inner crate: `pb_decode::validate` is the call for users. `pb_find` reads a message record by record: the tag, and then either the
//! end of the record, which is judged, or the payload.
#![tactic(auto)]

mod context;
mod judging;
mod payload;
mod refusal;
mod scope;
mod varints;
mod whole;

pub use judging::{find_fault, judge, record_end};
pub use payload::payload_at;
pub use pb_wire::{RecordTag, tag_at};
