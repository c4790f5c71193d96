//! Values, which go into the part that holds their record.

pub mod payload_value;
pub mod put;
pub mod put_entries;
pub mod put_run;
pub mod run;
