//! What a person needs to know of bytes that are refused: where they are, what they belong to, and what was expected.
//!
//! An inner crate: `pbtool_command` reads the bytes again and says to whom they belong.
#![tactic(auto)]

mod expected;
mod fault;
mod find;
mod source;
mod steps;
mod window;

pub use fault::{Refused, put_fault, write_fault};
pub use source::{Line, line_at, put_source_line, write_source_line};
pub use steps::{Given, Parent};
