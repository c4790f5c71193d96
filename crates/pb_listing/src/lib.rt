//! Listings of records and of messages, put into an output through a buffer.
#![tactic(auto)]

mod context;
mod floats;
mod form;
mod messages;
mod nested;
mod records;
mod shortest;
mod types;
mod unknown;
mod values;

pub use form::FloatForm;
pub use messages::{put_listing_as, put_listing_at, write_message, write_message_as};
pub use nested::write_nested;
pub use records::write_listing;
pub use shortest::write_shortest;
pub use types::{file_name, put_enum_type, put_kind, put_message_type, put_types, write_types};
