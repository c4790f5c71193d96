//! The names that a descriptor set gives to fields in JSON.
#![tactic(auto)]

mod held;
mod name;
mod set;

pub use set::names_of_set;
