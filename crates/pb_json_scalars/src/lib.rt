//! Single values of JSON: what the characters of a number, or the contents of a string, mean in the ProtoJSON format.
#![tactic(auto)]

mod bytes;
mod floats;
mod integers;
mod keys;
mod masks;
mod numbers;
mod times;

pub use bytes::read_base64;
pub use floats::{read_double, read_double_string, read_float, read_float_string};
pub use integers::{read_i32, read_i64, read_u32, read_u64};
pub use keys::{read_bool_key, read_i32_key, read_i64_key, read_u32_key, read_u64_key};
pub use masks::read_mask;
pub use times::{Time, read_duration, read_timestamp};
