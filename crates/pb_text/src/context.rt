//! What stays the same while a message is written.

use crate::form::TextForm;
use pb_schema::Pool;

/// The types of a message, and the form in which it is written.
#[derive(Clone, Copy)]
pub(crate) struct Context<'a> {
    pub pool: &'a Pool,
    pub form: TextForm,
}
