//! Messages from JSON.

mod lenient;
mod refusals;
mod rows;
