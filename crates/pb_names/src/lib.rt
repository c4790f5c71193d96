//! Sets of names, each name once, in which a name is found by its hash in sorted tables: whoever picks the names cannot make look-ups slow.
//!
//! An inner crate: `pb_schema`, `pb_link_names` and `pbtool_command` use it.
#![tactic(auto)]

pub mod name_hash;
pub mod name_set;
