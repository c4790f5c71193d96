//! Tests of descriptor sets, by their public calls alone.
#![tactic(auto)]

#[cfg(test)]
mod deep;
#[cfg(test)]
mod faults;
#[cfg(test)]
mod first_call;
#[cfg(test)]
mod lenient;
#[cfg(test)]
mod rows;
