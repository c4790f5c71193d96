//! Files over other files: with the bytes of a table, such as the sources of protobuf's well-known types, with
//! files in memory, and with word of how much was read.
#![tactic(auto)]

mod folders;
mod overlay;
mod progress;
mod well_known;
mod with_memory;

pub use folders::with_built_in;
pub use overlay::{Given, Overlay, OverlayInput};
pub use progress::{Counted, Progress};
pub use well_known::{BUILT_IN, built_in_files};
pub use with_memory::WithMemory;
