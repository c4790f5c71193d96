//! Decoders that receive an encoding piece by piece, each with a handle of its own.

pub(crate) mod feed;
pub(crate) mod finish;
pub(crate) mod free;
pub(crate) mod make;
pub(crate) mod pending;
