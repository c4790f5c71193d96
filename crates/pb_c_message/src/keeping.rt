//! Canonical bytes that are held in place of a message's fields, which are built of them when they are needed.

ghost use Rattle.std.specs.Prelude.{◌≡◌, ◌≢◌, ◌<◌, ℕ, length, IfOk, IfSome, None};
ghost use Rattle.pb_wire.specs.Inside.{records_spelled};
ghost use Rattle.pb_schema.specs.Rules.{IsPool};
ghost use Rattle.pb_schema.specs.Types.{Types};
ghost use Rattle.pb_value.specs.Canon.{canon_bytes};
ghost use Rattle.pb_value.specs.Value.{value};
ghost use Rattle.pb_value.specs.View.{body_view};
ghost use Rattle.pb_value.specs.WellFormed.{IsWellFormed};
ghost use Rattle.pb_canonical.specs.Canonical.{IsCanonical};
ghost use Rattle.pb_c_message.specs.Holds.{HoldsFields, IsHeld, body_held};

use crate::held::Held;
use pb_decode::decode;
use pb_schema::{MessageId, Pool};
use pb_value::Body;
use pb_value::bodies::empty_body;
use pb_wire::Limits;
use std::alloc::{AllocError, Global};
use std::mem;

/// A copy of canonical bytes, to be held in place of the message that they encode.
pub fn bytes_to_hold(alloc: Global, bytes: &[u8]) -> Result<Held, AllocError>
    ensures held { IfOk result (λ h. (pool : Types) (m : ℕ) → IsCanonical pool m bytes.now
        → IsHeld pool m h) }
    ensures value { IfOk result (λ h. (pool : Types) (m : ℕ)
        → body_held pool m h ≡ value pool m (records_spelled bytes.now)) }
{
    Ok(Held::Bytes(Vec::from_slice(alloc, bytes)?))
}

/// The canonical bytes of a message, where they are held.
pub fn canonical_bytes(held: &Held) -> Option<&[u8]>
    ensures canonical { IfSome result (λ b. (pool : Types) (m : ℕ) → IsHeld pool m held.now
        → IsCanonical pool m b.now) }
    ensures value { IfSome result (λ b. (pool : Types) (m : ℕ)
        → body_held pool m held.now ≡ value pool m (records_spelled b.now)) }
    ensures written { IfSome result (λ b. (pool : Types) (m : ℕ) → IsPool pool
        → IsHeld pool m held.now → b.now ≡ canon_bytes pool m (body_held pool m held.now)) }
{
    match held {
        Held::Bytes(bytes) => Some(bytes),
        Held::Fields(_) => None,
    }
}

/// The fields of the message that canonical bytes encode, unless memory runs out.
fn build(alloc: Global, pool: &Pool, message_type: MessageId, bytes: &[u8]) -> Option<Body>
    requires within { message_type.0 < length pool.now.messages }
    requires canonical { IsCanonical pool.now message_type.0 bytes.now }
    ensures body { IfSome result (λ b. body_view b
        ≡ value pool.now message_type.0 (records_spelled bytes.now)) }
    ensures well_formed { IfSome result (λ b. IsWellFormed pool.now message_type.0 (body_view b)) }
{
    match decode(alloc, pool, message_type, bytes, Limits::FULL) {
        Ok(message) => {
            let _well_formed = message.body();
            Some(message.into_body())
        }
        Err(_) => None,
    }
}

/// Takes out the fields of a message, built first where its bytes are held. Where memory runs out for that, there are none, and what is held is
/// as before. Fields that are held are always given.
#[inline(always)]
pub fn take_body(
    alloc: Global,
    pool: &Pool,
    message_type: MessageId,
    held: &mut Held,
) -> Option<Body>
    requires within { message_type.0 < length pool.now.messages }
    requires held { IsHeld pool.now message_type.0 held.old }
    ensures body { IfSome result (λ b. body_view b ≡ body_held pool.now message_type.0 held.old) }
    ensures well_formed { IfSome result (λ b. IsWellFormed pool.now message_type.0 (body_view b)) }
    ensures kept { result ≡ None → held.new ≡ held.old }
    ensures fields { HoldsFields held.old → result ≢ None }
{
    let nothing = Held::Fields(empty_body(alloc));
    match mem::replace(held, nothing) {
        Held::Fields(body) => Some(body),
        Held::Bytes(bytes) => {
            let built = build(alloc, pool, message_type, &bytes);
            if built.is_none() {
                *held = Held::Bytes(bytes);
            }
            built
        }
    }
}
