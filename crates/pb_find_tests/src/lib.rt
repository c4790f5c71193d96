//! Tests of `find`: worked cases, faults, and each path of messages, of random ones too, beside `decode`.
#![tactic(auto)]

#[cfg(test)]
mod alike;
#[cfg(test)]
mod answers;
#[cfg(test)]
mod chance;
#[cfg(test)]
mod first_call;
#[cfg(test)]
mod paths;
#[cfg(test)]
mod random;
#[cfg(test)]
mod rows;
#[cfg(test)]
mod sample;
#[cfg(test)]
mod words;
#[cfg(test)]
mod worked;
