//! The names that a descriptor set gives to fields in JSON.

mod rows;
mod schema;
mod tables;
