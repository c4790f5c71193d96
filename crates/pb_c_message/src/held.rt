//! What is held of a message.

use pb_value::Body;

/// What is held of a message.
#[derive(Drop)]
pub enum Held {
    /// Its canonical bytes.
    Bytes(Vec<u8>),
    /// Its fields and its unknown records.
    Fields(Body),
}
