//! Texts that have the bytes of a message: hexadecimal, and base64.
#![tactic(auto)]

mod base64_text;
mod blanks;
mod encoding;
mod hexadecimal;

pub use encoding::{BadText, Encoding, TextCause};
