//! Tests of messages in the text format, by the public calls of `pb_text`.
#![tactic(auto)]

#[cfg(test)]
mod rows;
#[cfg(test)]
mod schema;
#[cfg(test)]
mod writing;
