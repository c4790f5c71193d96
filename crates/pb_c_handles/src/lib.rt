//! The handles of C: each holds a pool, a message or a decoder, or nothing, and its type says nothing of that
//! to C.
#![tactic(auto)]

pub mod decoder;
pub mod message;
pub mod pool;
mod raw_box;

pub use raw_box::RawBox;
