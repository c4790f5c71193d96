//! Which rules fail: the rules of what files declare, and the least fault where one does not hold.
//!
//! An inner crate, used by `pb_link`, whose errors are the ones defined here.
#![tactic(auto)]

mod cause;
mod cycles;
mod error;
mod flags;
mod judge;
pub mod judged;
pub mod named;
pub mod names;
mod naming;
pub mod rules;
mod verdict;
mod walk;

pub use cause::LinkCause;
pub use error::LinkError;
