//! A type of a pool, by its name.

ghost use Rattle.std.specs.Prelude.{◌≡◌, ◌≢◌, ◌↔◌, ◌⊎◌, ℕ, IfSome};
ghost use Rattle.pb_schema.specs.Types.{Types};
ghost use Rattle.pb_c_handles.specs.Held.{types_held};
ghost use Rattle.pb_c.specs.PoolNames.{HasNumber};

use pb_c_answers::{DONE, EMPTY, NO_TYPE};
use pb_c_handles::pool::{PoolHandle, put, take};
use pb_schema::Pool;
use std::alloc::Global;

/// The number of the message type of a full name.
fn number_of(pool: &Pool, name: &[u8]) -> Option<u32>
    ensures found { IfSome result (HasNumber pool.now name.now) }
    ensures none { result ≡ None → (m : ℕ) → ¬ HasNumber pool.now name.now m }
{
    // By the rules of a pool its names are ASCII, so what is not UTF-8 is none of them.
    let _messages = pool.messages();
    let Ok(text) = std::str::from_utf8(name) else {
        return None;
    };
    let id = pool.message_by_name(text)?;
    u32::try_from(id.0).ok()
}

/// Reports the number of a message type by its full name, which has no leading dot.
///
/// Answers DONE; EMPTY where the handle holds nothing; or NO_TYPE. The number is written at DONE alone.
#[unsafe(no_mangle)]
pub extern "C" fn mb_pool_type(
    alloc: Global,
    pool: &mut PoolHandle,
    name: &[u8],
    number: &mut u32,
) -> u32
    ensures same { pool.new.seal.pool ≡ pool.old.seal.pool }
    ensures found { result ≡ DONE → (ts : Types) × (types_held pool.old ≡ Some ts)
        × HasNumber ts name.now number.new }
    ensures untold { result ≢ DONE → number.new ≡ number.old }
    ensures empty { result ≡ EMPTY ↔ (types_held pool.old ≡ None) }
    ensures named { (ts : Types) → types_held pool.old ≡ Some ts → (m : ℕ) → HasNumber ts name.now m
        → (result ≡ DONE) × (number.new ≡ m) }
    ensures unnamed { (ts : Types) → types_held pool.old ≡ Some ts
        → (result ≡ NO_TYPE ↔ ((m : ℕ) → ¬ HasNumber ts name.now m)) }
    ensures answers { (result ≡ DONE) ⊎ (result ≡ EMPTY) ⊎ (result ≡ NO_TYPE) }
{
    let Some(shared) = take(alloc, pool) else {
        return EMPTY;
    };
    let found = number_of(&shared.pool, name);
    put(pool, shared);
    let Some(found) = found else {
        return NO_TYPE;
    };
    *number = found;
    DONE
}
