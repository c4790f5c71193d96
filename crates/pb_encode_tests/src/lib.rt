//! Tests of encoding, by its public calls alone.
#![tactic(auto)]

#[cfg(test)]
mod first_call;
#[cfg(test)]
mod rows;
#[cfg(test)]
mod schema;
#[cfg(test)]
mod writing;
