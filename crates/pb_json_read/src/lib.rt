//! Messages from JSON: the proto3 JSON mapping, read.
#![tactic(auto)]

mod absent;
mod anys;
mod construction;
mod contents;
mod context;
mod depth;
mod dynamic;
mod encoded;
mod error;
mod forms;
mod keys;
mod lists;
mod maps;
mod messages;
mod name_table;
mod names;
mod passing;
mod plain;
mod rules;
mod scalars;
mod sole;
mod survey;
mod tables;
mod tags;
mod text;
mod values;

pub use error::{JsonReadCause, JsonReadError};
pub use rules::JsonRules;
pub use text::{read_json, read_json_by};
