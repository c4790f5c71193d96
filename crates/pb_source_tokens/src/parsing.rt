//! Readers of what statements are made of, for the parser of `pb_source` (Protocol Buffers Language Specification (Proto3)). A reader takes symbols from
//! an index on, and gives what they mean with the index after them. Else it gives `Refusal::At` with the index of the symbol that it refuses, which is
//! that after the last where no symbol is left, and with the rule that is broken, if it is one; or `Refusal::Memory`.

mod aggregates;
mod floats;
pub mod names;
pub mod numbers;
pub mod options;
pub mod ranges;
pub mod single;
pub mod types;
