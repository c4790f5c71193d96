//! Tests of sets of names, of which some have one hash.
#![tactic(auto)]

#[cfg(test)]
mod sets;
