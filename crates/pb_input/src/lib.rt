//! An input with a buffer of fixed size: what it holds is read without waiting for the device.
#![tactic(auto)]

mod buffered;

pub use buffered::BufferedInput;
