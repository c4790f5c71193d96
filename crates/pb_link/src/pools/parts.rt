//! What a pool is made of.

use pb_schema::{EnumType, FileInfo, MessageType};

/// Files, message types and enums.
#[derive(Drop)]
pub(crate) struct PoolParts {
    pub(crate) files: Vec<FileInfo>,
    pub(crate) messages: Vec<MessageType>,
    pub(crate) enums: Vec<EnumType>,
}
