//! Tests of `pb_place` by its public calls.
#![tactic(auto)]

#[cfg(test)]
mod asking;
#[cfg(test)]
mod changing;
#[cfg(test)]
mod nested;
#[cfg(test)]
mod places;
#[cfg(test)]
mod reading;
#[cfg(test)]
mod schema;
#[cfg(test)]
mod tests;
