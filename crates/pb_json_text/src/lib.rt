//! JSON texts as values, with the byte where each begins (RFC 8259).
//!
//! An inner crate, which knows nothing of messages.
#![tactic(auto)]

mod bytes;
mod escape;
mod fault;
mod number;
mod reading;
mod strings;
mod text;
mod value;

pub use fault::{JsonCause, JsonFault};
pub use text::{MAX_DEPTH, read_value};
pub use value::{JsonForm, JsonMember, JsonValue};
