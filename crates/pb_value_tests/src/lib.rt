//! Tests of `pb_value` by its public calls, on messages of a sample schema: which bodies and changes are refused, and each call once.
//! Expected values are those of the encoding guide or were worked out by hand. A caller of oneofs is proved from public clauses alone.
#![tactic(auto)]

#[cfg(test)]
mod bodies;
#[cfg(test)]
mod calls;
#[cfg(test)]
mod changes;
#[cfg(test)]
mod choice;
#[cfg(test)]
mod first_call;
#[cfg(test)]
mod merges;
#[cfg(test)]
mod sample;
#[cfg(test)]
mod tests;
#[cfg(test)]
mod views;
