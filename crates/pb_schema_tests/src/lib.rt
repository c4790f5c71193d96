//! Tests of `pb_schema` by its public calls: sample schemas and their look-ups, a set of parts for each rule that it breaks, and payloads
//! worked out by the table of kinds. A packed list of any packable scalar is a caller that is proved from public clauses alone.
#![tactic(auto)]

#[cfg(test)]
mod closed;
#[cfg(test)]
mod first_call;
#[cfg(test)]
mod large;
#[cfg(test)]
mod packed;
#[cfg(test)]
mod pools;
#[cfg(test)]
mod rows;
#[cfg(test)]
mod rules;
#[cfg(test)]
mod samples;
#[cfg(test)]
mod scalars;
