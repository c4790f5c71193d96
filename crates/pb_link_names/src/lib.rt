//! What names mean: all that files declare in one row, what files see of each other, and which declaration a name is.
//!
//! An inner crate, used by `pb_link_rules` and `pb_link`.
#![tactic(auto)]

pub mod components;
pub mod declaration;
pub mod declared;
pub mod firsts;
pub mod found;
pub mod imports;
pub mod item;
pub mod marks;
pub mod package_set;
pub mod packages;
pub mod places;
pub mod scene;
mod scopes;
pub mod sight;
pub mod type_refs;
pub mod words;
