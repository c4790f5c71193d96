//! Whether messages of an old type can be read as a new type: each field that differs, and what the change does.
//!
//! ```rust
//! use pb_compat::{breaks_reading, compare};
//! use pb_schema::Pool;
//! use std::alloc::Global;
//! use std::test::Fail;
//!
//! /// Whether every message of the old type p.M keeps its values if it is read as the new one.
//! fn keeps_messages(alloc: Global, old: &Pool, new: &Pool) -> Result<bool, Fail> {
//!     let old_type = old.message_by_name("p.M").ok_or("no old type")?;
//!     let new_type = new.message_by_name("p.M").ok_or("no new type")?;
//!     let compared = compare(alloc, old, old_type, new, new_type)?;
//!     Ok(!breaks_reading(&compared))
//! }
//! ```
#![tactic(auto)]

mod breaking;
mod comparing;
mod difference;
mod differences;
mod fields;
pub mod laws;
mod namesakes;
mod nested;
mod oneofs;
mod pairs;
mod report;
mod samples;
mod scalars;
mod witnesses;

pub use breaking::breaks_reading;
pub use comparing::{compare, compare_all, compare_all_within, compare_within};
pub use difference::{ComparedTypes, Difference, Severity, Step};
pub use namesakes::namesake;
pub use nested::nested_witness;
pub use report::Report;
pub use witnesses::witness;
