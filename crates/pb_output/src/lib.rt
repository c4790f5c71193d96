//! An output with a buffer of fixed size, whose first failure is kept: what puts bytes into it answers nothing, and asks at its end.
#![tactic(auto)]

mod buffer;
mod sink;

pub use buffer::{MAX_VARINT, OutputBuffer, SIZE};
pub use sink::Sink;
