//! Tests of `compare`: each pair of kinds and shapes beside what libprotobuf reads, worked cases, and a message for each rule that breaks reading.
#![tactic(auto)]

#[cfg(test)]
mod built;
#[cfg(test)]
mod cases;
#[cfg(test)]
mod chains;
#[cfg(test)]
mod fields;
#[cfg(test)]
mod first_call;
#[cfg(test)]
mod lines;
#[cfg(test)]
mod nested;
#[cfg(test)]
mod readings;
#[cfg(test)]
mod rules;
#[cfg(test)]
mod table;
#[cfg(test)]
mod witnesses;
