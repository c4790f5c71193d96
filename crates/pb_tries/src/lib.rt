//! Sets of names byte by byte, so that what they cost is in proportion to the bytes that are added, whoever picks the names.
//!
//! An inner crate, used by `pb_link_names`.
#![tactic(auto)]

pub mod trie;
