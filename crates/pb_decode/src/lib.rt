//! Messages from bytes, by a schema.
//!
//! ```rust
//! use pb_decode::decode;
//! use pb_schema::Pool;
//! use pb_wire::Limits;
//! use std::alloc::Global;
//! use std::test::Fail;
//!
//! /// How many fields a message of type T has, or where its bytes fail and why.
//! fn outcome(alloc: Global, pool: &Pool, bytes: &[u8]) -> Result<String, Fail> {
//!     let message_type = pool.message_by_name("T").ok_or("no type T")?;
//!     match decode(alloc, pool, message_type, bytes, Limits::FULL) {
//!         Ok(message) => Ok(format!(in alloc; "{} fields", message.body().fields.len())?),
//!         Err(error) => Ok(format!(in alloc; "{error}")?), // the byte and the cause of a fault, which has a path too
//!     }
//! }
//! ```
#![tactic(auto)]

mod decoder_parts;
mod error;
mod frame;
mod from_device;
pub mod laws;
mod onto;
mod push;
mod push_decoder;
mod reader;
mod validating;

pub use decoder_parts::DecoderParts;
pub use error::DecodeError;
pub use frame::decode_frame;
pub use from_device::decode_from;
pub use onto::decode_onto;
pub use push::decode;
pub use push_decoder::PushDecoder;
pub use validating::validate;
