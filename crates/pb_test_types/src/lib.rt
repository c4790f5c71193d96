//! What crates of tests share: the types of rows, and values that are read from words.
#![tactic(auto)]

mod bodies;
mod contents;
mod error;
mod texts;
mod types;
mod values;

pub use bodies::body_of;
pub use contents::content_of;
pub use error::WordError;
pub use types::{
    EnumRow, FIELDS_OF_F, FIELDS_OF_T, FieldRow, FileRow, PACKED, TypeRow, UNPACKED, pool_of,
};
pub use values::{key_of, value_of};
