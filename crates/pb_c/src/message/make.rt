//! An empty message.

ghost use Rattle.std.specs.Prelude.{◌≡◌, ◌≢◌, ◌≤◌, ◌↔◌, ◌⊎◌, None, Some, length, Err, IfOk, IfErr};
ghost use Rattle.pb_schema.specs.Types.{Types};
ghost use Rattle.pb_value.specs.Data.{empty};
ghost use Rattle.pb_c_handles.specs.Held.{types_held};
ghost use Rattle.pb_c_message.specs.Holds.{message_of};
ghost use Rattle.pb_c_answers.specs.Typed.{HasType, LacksType};

use pb_c_answers::{DONE, EMPTY, MEMORY, NO_TYPE, type_numbered};
use pb_c_handles::message::own::{OwnMessage, boxed};
use pb_c_handles::message::{MessageHandle, hold};
use pb_c_handles::pool::{PoolHandle, put, take};
use pb_schema::Pool;
use pb_value::DynamicMessage;
use std::alloc::Global;
use std::sync::Arc;

/// The empty message of the type of a number, or what a call answers.
fn empty_message(
    alloc: Global,
    pool: &Arc<Pool>,
    number: u32,
) -> Result<Box<OwnMessage, Global>, u32>
    ensures made { IfOk result (λ b. b.value ≡ message_of pool.now.value number empty) }
    ensures no_type { result ≡ Err NO_TYPE ↔ length pool.now.value.messages ≤ number }
    ensures answers { IfErr result (λ a. (a ≡ NO_TYPE) ⊎ (a ≡ MEMORY)) }
{
    let Some(message_type) = type_numbered(pool, number) else {
        return Err(NO_TYPE);
    };
    let message = DynamicMessage::new(alloc, pool, message_type);
    match boxed(alloc, pool, message) {
        Ok(message) => Ok(message),
        Err(_) => Err(MEMORY),
    }
}

/// Makes an empty message of the type of this number in the pool, in place of what the handle of the message held. The message holds the
/// pool too, which is freed with the last handle that holds it.
///
/// Answers DONE; EMPTY where the handle of the pool holds nothing; NO_TYPE where its pool has no such type; or MEMORY. The handle of the
/// message is changed at DONE alone.
#[unsafe(no_mangle)]
pub extern "C" fn mb_message_new(
    alloc: Global,
    pool: &mut PoolHandle,
    message_type: u32,
    message: &mut MessageHandle,
) -> u32
    ensures made { result ≡ DONE → (ts : Types) × HasType (types_held pool.old) message_type ts
        × (message.new.seal.message ≡ Some (message_of ts message_type empty)) }
    ensures kept { result ≢ DONE → message.new ≡ message.old }
    ensures empty { result ≡ EMPTY ↔ (types_held pool.old ≡ None) }
    ensures no_type { result ≡ NO_TYPE ↔ LacksType (types_held pool.old) message_type }
    ensures answers { (result ≡ DONE) ⊎ (result ≡ EMPTY) ⊎ (result ≡ NO_TYPE) ⊎ (result ≡ MEMORY) }
    ensures same { pool.new.seal.pool ≡ pool.old.seal.pool }
{
    let Some(shared) = take(alloc, pool) else {
        return EMPTY;
    };
    let made = empty_message(alloc, &shared.pool, message_type);
    put(pool, shared);
    match made {
        Ok(made) => {
            hold(alloc, message, made);
            DONE
        }
        Err(answer) => answer,
    }
}
