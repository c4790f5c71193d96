//! The tokens of a text in the text format, with the byte where each begins (Text Format Language Specification, "Lexical Elements").
//!
//! An inner crate, which knows nothing of messages.
#![tactic(auto)]

mod bytes;
mod digits;
mod escape;
mod fault;
mod lexing;
mod number;
mod strings;
mod token;

pub use fault::{TokenCause, TokenFault};
pub use lexing::lex;
pub use strings::push_string;
pub use token::{Token, TokenKind};
