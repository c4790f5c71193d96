//! The open parts of a message while it is read, and what each record makes of them.
//!
//! A part is open from the record that begins it up to its end: a message, an entry of a map, or a group of which the schema knows
//! nothing. `tokens` says what is at the start of bytes, `open` what a record is for in a part and what it opens, `values` puts
//! what it gives there, and `close` puts a part that ends into the one around it.
//!
//! An inner crate: `pb_decode_whole` and `pb_decode` use it, and move along the bytes.
#![tactic(auto)]

mod close;
mod error;
mod open;
mod tokens;
mod values;

pub use close::{close_part, count_one, key_or_default, put_group, put_message, value_or_missing};
pub use error::{NoMemory, Put};
pub use open::occurrences::Occurrences;
pub use open::opening::{
    depth_left_in, is_free, message_slot, open_entry, open_group, open_message, take_message,
};
pub use open::part::{Entry, Parent, Part, Scope, Slot};
pub use open::target::{Target, target_of};
pub use tokens::number::{number_at, number_value};
pub use tokens::record_tag::{RecordTag, group_refusal, record_tag};
pub use tokens::step::{Step, begin_list, begin_payload, has_level, tag_step};
pub use values::payload_value::{PayloadError, put_payload};
pub use values::put::{is_undeclared, put_element, put_number, put_scalar};
pub use values::put_entries::put_entries;
pub use values::put_run::{put_elements, put_run};
pub use values::run::{Run, read_list, read_run};
