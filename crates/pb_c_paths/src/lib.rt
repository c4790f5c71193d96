//! Paths with the names of fields, as `lines[2].article` and `stock["pen"]`, read as the steps of a place,
//! for the calls of `pb_c`.
#![tactic(auto)]

mod brackets;
mod path;
mod reading;
mod unread;

pub use path::{ReadPath, read_path};
pub use reading::Reading;
pub use unread::Unread;
