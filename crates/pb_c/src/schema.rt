//! What a pool declares, part by part.

pub(crate) mod counts;
pub(crate) mod enum_type;
pub(crate) mod file;
pub(crate) mod message_type;
