//! Decoders by pieces: what a call answers of one.

mod answering;
mod receiving;

pub use self::answering::{begin, count, end, feed};
