//! Tests of JSON texts and of single values of JSON, by the public calls of `pb_json_text` and `pb_json_scalars`.
#![tactic(auto)]

#[cfg(test)]
mod floats;
#[cfg(test)]
mod integers;
#[cfg(test)]
mod rows;
#[cfg(test)]
mod shown;
#[cfg(test)]
mod strings;
