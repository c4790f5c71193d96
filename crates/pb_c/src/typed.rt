//! Messages of the types of a pool, each named by its number there.

pub(crate) mod canon;
pub(crate) mod canonical;
pub(crate) mod check;
pub(crate) mod find;
pub(crate) mod frames;
pub(crate) mod from_json;
pub(crate) mod input;
pub(crate) mod show;
pub(crate) mod show_decimal;
