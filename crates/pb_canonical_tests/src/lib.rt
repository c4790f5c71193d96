//! Tests of `pb_canonical`: its answers beside what `decode` and `encode` answer, of worked cases and of each change of a byte in them.
#![tactic(auto)]

#[cfg(test)]
mod first_call;
#[cfg(test)]
mod hostile;
#[cfg(test)]
mod many_oneofs;
#[cfg(test)]
mod rows;
#[cfg(test)]
mod sample;
#[cfg(test)]
mod words;
#[cfg(test)]
mod worked;
