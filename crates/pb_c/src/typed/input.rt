//! What the calls get to read.

use pb_schema::Pool;
use pb_wire::Limits;

/// Bytes that are given as the encoding of a message, of the type of a number in a pool, within limits.
#[derive(Clone, Copy)]
pub(crate) struct TypedInput<'a> {
    pub pool: &'a Pool,
    pub type_number: u32,
    pub bytes: &'a [u8],
    pub limits: Limits,
}
