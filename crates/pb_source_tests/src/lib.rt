//! Tests of sources, by the public calls alone.
#![tactic(auto)]

#[cfg(test)]
mod calls;
#[cfg(test)]
mod first_call;
#[cfg(test)]
mod lenient;
#[cfg(test)]
mod parsing;
#[cfg(test)]
mod rows;
