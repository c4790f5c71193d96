//! Bodies made part by part, and how deep values nest, for crates that decode or change nested messages: no call judges the message, so whoever
//! makes one answers for its rules. Others change messages by [`DynamicMessage`](crate::DynamicMessage).

pub use crate::change::insert::insert_entry;
pub use crate::change::push::push_element;
pub use crate::change::{put_field, store, take_field};
pub use crate::dynamic::{empty_body, from_well_formed};
pub use crate::judge::depth::{MAX_LEVELS, content_within, entry_within, value_within};
