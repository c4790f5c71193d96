//! What a handle holds.

use pb_json::JsonNames;
use pb_schema::Pool;
use std::sync::Arc;

/// A pool and the names that its fields are given in JSON, which handles share.
#[derive(Drop)]
pub struct Shared {
    pub pool: Arc<Pool>,
    pub names: Arc<JsonNames>,
}
