//! Messages that stay with the library, each with a handle of its own.

pub(crate) mod change;
pub(crate) mod copy;
pub(crate) mod decode;
pub(crate) mod encode;
pub(crate) mod equal;
pub(crate) mod fields;
pub(crate) mod frame;
pub(crate) mod free;
pub(crate) mod from_json;
pub(crate) mod get;
pub(crate) mod json;
pub(crate) mod key;
pub(crate) mod keys;
pub(crate) mod make;
pub(crate) mod merge;
pub(crate) mod miss;
pub(crate) mod oneof;
pub(crate) mod read;
pub(crate) mod show;
pub(crate) mod show_decimal;
pub(crate) mod text;
pub(crate) mod unknown;
