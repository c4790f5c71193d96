//! A place in a message: which part of it is meant, by steps from the whole, and changes of the message at a place.
//!
//! A place is a list of steps: a field by its number, an element of a list by its index, an entry of a map by its key. Steps lead
//! through messages inside messages, lists of messages and maps of messages.
#![tactic(auto)]

mod asking;
mod changing;
mod error;
mod pending;
mod reading;
mod step;
mod walk;

pub use asking::{
    is_set, key_at, len_at, message_at, numbers_at, scalar_at, unknown_at, which_oneof_at,
};
pub use changing::{
    change_at, clear_at, drop_unknown_at, insert_at, push_at, remove_at, remove_element_at, set_at,
    set_element_at, set_value_at,
};
pub use error::ChangeError;
pub use reading::{Found, at};
pub use step::PlaceStep;
