//! What is at the start of bytes, and what comes next after it: tags, lengths and numbers.

pub mod number;
pub mod record_tag;
pub mod step;
