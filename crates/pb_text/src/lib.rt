//! Messages in the text format, as libprotobuf prints them.
#![tactic(auto)]

mod context;
mod embedded;
mod floats;
mod form;
mod labels;
mod layout;
mod lines;
mod messages;
mod numbers;
mod strings;
mod unknown;
mod values;

pub use form::{Characters, Layout, TextForm, UnknownRecords};
pub use messages::{put_text, write_text};
