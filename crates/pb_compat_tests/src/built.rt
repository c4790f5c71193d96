//! Messages that the library builds for a difference that breaks: the codec itself shows what they show.

use super::readings::reads_same;
use pb_compat::witness;
use pb_encode::encode;
use pb_schema::{MessageId, Pool};
use std::alloc::Global;
use std::test::Fail;

/// Whether a message is built for field 1, whose bytes the old type reads, and the new type refuses or reads otherwise.
pub(crate) fn is_built(alloc: Global, old: &Pool, new: &Pool) -> Result<bool, Fail> {
    if old.messages().is_empty() || new.messages().is_empty() {
        return Err("no message".into());
    }
    let Some(message) = witness(alloc, old, MessageId(0), new, MessageId(0), 1)? else {
        return Ok(false);
    };
    let bytes = encode(&message)?;
    Ok(!reads_same(alloc, old, new, &bytes, 1)?)
}
