//! The calls over a pool and its handle.

pub(crate) mod compile;
pub(crate) mod field;
pub(crate) mod free;
pub(crate) mod link;
pub(crate) mod link_lenient;
mod linking;
pub(crate) mod path;
pub(crate) mod refusal;
pub(crate) mod set;
pub(crate) mod share;
pub(crate) mod type_number;
