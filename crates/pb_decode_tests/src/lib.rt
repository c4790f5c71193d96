//! Tests of `pb_decode` by its public calls: worked texts at once, from an input that gives a byte a call, and in pieces of every
//! cut; messages that are decoded onto, frames, what is held between pieces, refused reads and allocations, and texts made to hurt.
//! A caller in pieces is proved from public clauses alone. Expected values were worked out by hand.
#![tactic(auto)]

#[cfg(test)]
mod answers;
#[cfg(test)]
mod caller;
#[cfg(test)]
mod devices;
#[cfg(test)]
mod first_call;
#[cfg(test)]
mod hostile;
#[cfg(test)]
mod messages;
#[cfg(test)]
mod pieces;
#[cfg(test)]
mod rows;
#[cfg(test)]
mod sample;
#[cfg(test)]
mod tests;
#[cfg(test)]
mod words;
#[cfg(test)]
mod worked;
