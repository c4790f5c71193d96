//! Bytes that are the canonical bytes of their message already.

ghost use Rattle.std.specs.Prelude.{◌≡◌, ◌<◌, ◌^◌, true, length};
ghost use Rattle.pb_wire.specs.Fault.{Fault};
ghost use Rattle.pb_schema.specs.Rules.{IsPool};
ghost use Rattle.pb_value.specs.Data.{Message};
ghost use Rattle.pb_value.specs.Canon.{canon_bytes};
ghost use Rattle.pb_value.specs.Derives.{Text};
ghost use Rattle.pb_canonical.specs.Canonical.{IsCanonical};
ghost use Rattle.pb_decode.specs.Push.{IsFaultOf};

use pb_c_answers::type_numbered;
use pb_canonical::is_canonical;
use pb_decode::validate;
use pb_schema::{MessageId, Pool};
use pb_wire::{Limits, MAX_BYTES, MAX_DEPTH};
use std::alloc::Global;

/// Whether bytes are a message of the type of a number within the limits, and its canonical bytes.
pub(crate) fn is_known_canonical(
    alloc: Global,
    pool: &Pool,
    number: u32,
    bytes: &[u8],
    limits: Limits,
) -> bool
    ensures within { result ≡ true → number < length pool.now.messages }
    ensures canonical { result ≡ true → IsCanonical pool.now number bytes.now }
    ensures value { result ≡ true → (v : Message) × Text pool.now number limits bytes.now v }
    ensures only { result ≡ true → (v : Message) → Text pool.now number limits bytes.now v
        → (bytes.now ≡ canon_bytes pool.now number v)
        × (length (canon_bytes pool.now number v) < 2 ^ 31) }
    ensures faultless { result ≡ true → (f : Fault)
        → ¬ IsFaultOf pool.now number limits bytes.now f }
    ensures complete { number < length pool.now.messages → IsCanonical pool.now number bytes.now
        → (v : Message) → Text pool.now number limits bytes.now v → result ≡ true }
{
    let _types = pool.messages();
    let Some(message_type) = type_numbered(pool, number) else {
        return false;
    };
    if !is_canonical(pool, message_type, bytes) {
        return false;
    }
    is_within(alloc, pool, message_type, bytes, limits)
}

/// Whether canonical bytes are within the limits, as they are within the greatest.
fn is_within(
    alloc: Global,
    pool: &Pool,
    message_type: MessageId,
    bytes: &[u8],
    limits: Limits,
) -> bool
    requires within { message_type.0 < length pool.now.messages }
    requires rules { IsPool pool.now }
    requires canonical { IsCanonical pool.now message_type.0 bytes.now }
    ensures text { result ≡ true → (v : Message) × Text pool.now message_type.0 limits bytes.now v }
    ensures complete { (v : Message) → Text pool.now message_type.0 limits bytes.now v
        → result ≡ true }
{
    if are_greatest(limits) {
        return true;
    }
    match validate(alloc, pool, message_type, bytes, limits) {
        Ok(()) => true,
        Err(_) => false,
    }
}

fn are_greatest(limits: Limits) -> bool
    ensures bytes { result ≡ true → limits.bytes ≡ 0x7fff_ffff }
    ensures depth { result ≡ true → limits.depth ≡ 100 }
{
    limits.max_bytes() == MAX_BYTES && limits.max_depth() == MAX_DEPTH
}
