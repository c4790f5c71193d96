//! What is known where a part of a message is written.

use crate::form::JsonForm;
use pb_schema::Pool;
use std::alloc::Global;

/// The types of a message, and the form in which it is written.
#[derive(Clone, Copy)]
pub(crate) struct Context<'a> {
    pub alloc: Global,
    pub pool: &'a Pool,
    pub form: JsonForm<'a>,
}

/// Where a value is: how many levels of messages may be nested in it, and the indentation of its line.
#[derive(Clone, Copy)]
pub(crate) struct Place {
    pub levels: usize,
    pub indent: usize,
}
