//! Which tokens a source of proto2 or proto3 is, and the readers of symbols that the parser of `pb_source` is made of.
//!
//! An inner crate: `pb_source` is built on it, and publishes what is at its root and the law of tokens. The modules `grammar`, `symbol`, `symbols`,
//! `refusal`, `rule` and `parsing` are for its parser.
#![tactic(auto)]

mod bracket;
mod bytes;
mod fault;
pub mod grammar;
pub mod laws;
mod lexing;
mod meaning;
pub mod parsing;
pub mod refusal;
pub mod rule;
pub mod symbol;
pub mod symbols;
mod text;
mod token;

pub use fault::{SourceCause, SourceFault};
pub use lexing::lex;
pub use token::{Token, TokenKind};
