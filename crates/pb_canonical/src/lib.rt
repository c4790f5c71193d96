//! Whether bytes are the canonical encoding of a message, without building it.
//!
//! The bytes are read once where they lie, by recursion over what nests in them. No memory is taken.
//!
//! An inner crate: callers copy canonical input with it.
#![tactic(auto)]

mod first;
mod keys;
mod messages;
mod oneofs;
mod scalars;
mod unknown;

pub use messages::is_canonical;
