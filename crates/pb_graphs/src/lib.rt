//! What several crates keep graphs by: a graph whose lists are parts of one list, what is reached along a graph, and whether it has a cycle.
//!
//! An inner crate: `pb_schema`, `pb_link_names`, `pb_link_rules` and `pb_link` use it.
#![tactic(auto)]

pub mod cycles;
pub mod flat;
pub mod reach;
