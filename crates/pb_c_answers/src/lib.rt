//! What the calls of `pb_c` answer and report: numbers, faults with their paths, messages by the numbers of
//! their types, JSON, the text format, and decoders by pieces.
#![tactic(auto)]

pub mod decoder;
mod json;
mod reporting;
mod text;
mod typed;

pub use json::reading::{canonical_text, read_text, rules_of};
pub use json::writing::{form_of, write_as_json};
pub use reporting::{
    ABSENT, BAD_LIMITS, BAD_NAME, BAD_PLACE, BAD_VALUE, DONE, EMPTY, FAULT, FINISHED, FaultReport,
    MEMORY, NO_TYPE, PART, Step, TOO_DEEP, TOO_LARGE, lay_over, tell_fault,
};
pub use text::{TextFlags, write_as_text};
pub use typed::{canonical_of, read_message, tell_error, type_numbered, write_out};
