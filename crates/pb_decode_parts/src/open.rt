//! The open parts, what records are for in them, and what they open.

pub mod occurrences;
pub mod opening;
pub mod part;
pub mod target;
