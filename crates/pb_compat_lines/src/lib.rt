//! What a comparison of two pools prints: a line for each difference, and whether one breaks reading.
#![tactic(auto)]

mod lines;
mod verdict;

pub use verdict::{Readers, Verdict, judge};
