//! Named files, why a command over them is refused, and which pool and which type of it the set in a file gives.
#![tactic(auto)]

mod files;
mod host;
mod memory;
mod pieces;
mod reading;
mod report;
mod set_file;

pub use files::Files;
pub use host::HostFiles;
pub use memory::MemFiles;
pub use pieces::{FIRST_PIECE, is_cut, read_on};
pub use reading::{open_file, read_file};
pub use report::{OUTPUT, Refusal};
pub use set_file::{LinkedSet, NamedType, Reading, find_named_type, find_type, pool_at};
