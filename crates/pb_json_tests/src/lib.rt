//! Tests of messages in JSON and from JSON, by the public calls of `pb_json`, `pb_json_names` and `pb_json_read`.
#![tactic(auto)]

#[cfg(test)]
mod names;
#[cfg(test)]
mod read;
#[cfg(test)]
mod refusals;
#[cfg(test)]
mod rows;
#[cfg(test)]
mod schema;
#[cfg(test)]
mod writing;
