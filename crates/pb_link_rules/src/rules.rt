//! The rules of linking, a check each.

pub mod kinds;
pub mod maps;
pub(crate) mod numbers;
pub(crate) mod uses;
