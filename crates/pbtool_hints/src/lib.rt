//! Why a command over files is refused, for a person: the files are read again, and what is found is a list of lines.
//!
//! An inner crate: `pbtool_command` says what a command read.
#![tactic(auto)]

mod bytes;
mod declared;
mod expected;
mod explaining;
mod formats;
mod frames;
mod lines;
mod near;
mod places;
mod question;
mod set_causes;
mod sets;
mod sources;
mod subject;
mod types;
mod unknown;

pub use explaining::explain;
pub use subject::{Subject, TypeOf};
