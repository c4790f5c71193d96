//! Messages as JSON, by the ProtoJSON format.
#![tactic(auto)]

pub mod anys;
mod context;
mod error;
mod form;
mod given;
mod held;
mod judging;
mod masks;
mod messages;
pub mod names;
mod scalars;
mod strings;
mod times;
pub mod well_known;

pub use error::{JsonCause, JsonError, Refusal};
pub use form::{JsonForm, Layout, Names};
pub use given::JsonNames;
pub use judging::judge_json;
pub use messages::{put_json, write_json};
