//! Tests of streams, by their public calls alone.
#![tactic(auto)]

#[cfg(test)]
mod asking;
#[cfg(test)]
mod devices;
#[cfg(test)]
mod first_call;
#[cfg(test)]
mod frames;
#[cfg(test)]
mod sample;
#[cfg(test)]
mod turns;
