//! How sources are read.

/// How sources are read.
#[derive(Clone, Copy, PartialEq, Eq)]
pub enum Reading {
    /// Strictly: sources of proto3, without what declares no message, enum or service.
    Strict,
    /// Leniently: all of proto2 and proto3, where what declares nothing is read and dropped.
    Lenient,
}
