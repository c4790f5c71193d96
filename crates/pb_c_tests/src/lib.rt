//! Tests of what the calls for C do with a message: reading, holding and changing it, by the public calls of
//! `pb_c_message` and `pb_c_paths`.
#![tactic(auto)]

#[cfg(test)]
mod asking;
#[cfg(test)]
mod changing;
#[cfg(test)]
mod holding;
#[cfg(test)]
mod paths;
#[cfg(test)]
mod schema;
#[cfg(test)]
mod tests;
