//! A message as C says and is given it, for the calls of `pb_c`: where a value is, what it is, how it
//! changes, and what is kept of the message.
//!
//! A value and a step of a place are a kind and a number. Strings are given beside them, as a list. Of a
//! message its canonical bytes are kept as they were given, until a call needs more of it than a scalar or
//! these bytes, and from then on its fields.
#![tactic(auto)]

mod asking;
mod changing;
mod finding;
mod held;
mod keeping;
mod key;
mod keys;
mod miss;
mod new_value;
mod place;
mod scalar;
mod steps;
mod unchanged;
mod value;

pub use asking::{bytes_at, fields_at, key_at, oneof_at, unknown_at, value_at};
pub use changing::{PlainChange, Put, change};
pub use finding::{bytes_held, plain_held};
pub use held::Held;
pub use keeping::{bytes_to_hold, canonical_bytes, take_body};
pub use key::{key_bytes, key_value};
pub use keys::{KeyCounts, keys_at};
pub use miss::Miss;
pub use place::{int32_said, key_of, place_of, uint32_said};
pub use scalar::{scalar_bytes, scalar_value};
pub use steps::Steps;
pub use unchanged::Unchanged;
pub use value::{
    BOOL, BYTES, DOUBLE, ENUM, FIELD, FLOAT, INDEX, INT32, INT64, LIST, MAP, MESSAGE, PlainValue,
    STRING, UINT32, UINT64, all_bits, bit,
};
