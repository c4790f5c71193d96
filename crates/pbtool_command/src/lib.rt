//! The commands, and what each does over files and two outputs.
#![tactic(auto)]

mod all_frames;
mod by_type;
mod check;
mod cleanup;
mod command;
mod compat;
mod compile;
mod early;
mod executing;
mod form;
mod frames;
mod from_json;
mod gathering;
mod message;
mod raw;
mod shown;
mod sources;
mod types;

pub use cleanup::Cleanup;
pub use command::{Command, Comparison, FrameForm, RawForm, Roots, Source};
pub use executing::{execute, execute_then, perform};
pub use pb_compat_lines::Readers;
pub use pb_json::Layout;
pub use pb_json_read::JsonRules;
pub use pb_listing::FloatForm;
pub use pb_text::TextForm;
pub use pbtool_files::{Files, HostFiles, MemFiles, Reading, Refusal};
