//! Texts in the text format as trees of fields, with the byte where each part begins (Text Format Language Specification).
//!
//! An inner crate, which knows nothing of messages.
#![tactic(auto)]

mod fault;
mod fields;
mod names;
mod scalars;
mod source;
mod text;
mod value;

pub use fault::{SyntaxCause, SyntaxFault};
pub use text::{MAX_DEPTH, read_fields};
pub use value::{PlacedScalar, TextField, TextMessage, TextName, TextScalar, TextValue};
