//! JSON: what is read and written, and what a call answers.

pub(crate) mod reading;
pub(crate) mod writing;
