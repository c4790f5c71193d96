//! Messages that show that a difference breaks reading.

ghost use Rattle.std.specs.Prelude.{◌≡◌, ◌≢◌, ◌≤◌, ◌↔◌, ◌⊎◌, ℕ, None, Some, length, Err, IfOk, IfErr, IfSome, IfNone};
ghost use Rattle.pb_schema.specs.Types.{Types};
ghost use Rattle.pb_value.specs.Dynamic.{Dynamic};
ghost use Rattle.pb_c_handles.specs.Held.{types_held};
ghost use Rattle.pb_c.specs.Shown.{IsPairAt, IsShown, IsUnshown};
ghost use Rattle.pb_c_answers.specs.Typed.{HasType, LacksType};

use super::DifferenceReport;
use pb_c_answers::{ABSENT, DONE, EMPTY, MEMORY, NO_TYPE, type_numbered};
use pb_c_handles::message::own::{OwnMessage, boxed};
use pb_c_handles::message::{MessageHandle, hold};
use pb_c_handles::pool::{PoolHandle, put, take};
use pb_compat::{ComparedTypes, compare, nested_witness};
use pb_schema::Pool;
use std::alloc::Global;
use std::sync::Arc;

/// The index of the types of a difference.
fn pair_index(compared: &[ComparedTypes], difference: &DifferenceReport) -> Option<usize>
    ensures found { IfSome result (λ i. IsPairAt compared.now i difference.now) }
    ensures none { IfNone result ((i : ℕ) → ¬ IsPairAt compared.now i difference.now) }
{
    for i in 0..compared.len() {
        let types = &compared[i];
        if types.old.0 == difference.old_type && types.new.0 == difference.new_type {
            return Some(i);
        }
    }
    None
}

/// A message that shows that a difference breaks, or what a call answers.
fn witness_of(
    alloc: Global,
    old: &Arc<Pool>,
    old_type: u32,
    new: &Pool,
    new_type: u32,
    difference: &DifferenceReport,
) -> Result<Box<OwnMessage, Global>, u32>
    ensures shown { IfOk result
        (λ b. IsShown old.now.value new.now old_type new_type difference.now b.value) }
    ensures absent { result ≡ Err ABSENT
        → IsUnshown old.now.value new.now old_type new_type difference.now }
    ensures no_type { result ≡ Err NO_TYPE ↔ (length old.now.value.messages ≤ old_type)
        ⊎ (length new.now.messages ≤ new_type) }
    ensures answers { IfErr result (λ a. (a ≡ NO_TYPE) ⊎ (a ≡ ABSENT) ⊎ (a ≡ MEMORY)) }
{
    let Some(from) = type_numbered(old, old_type) else {
        return Err(NO_TYPE);
    };
    let Some(to) = type_numbered(new, new_type) else {
        return Err(NO_TYPE);
    };
    let Ok(compared) = compare(alloc, old, from, new, to) else {
        return Err(MEMORY);
    };
    let Some(index) = pair_index(&compared, difference) else {
        return Err(ABSENT);
    };
    match nested_witness(alloc, old, new, &compared, index, difference.number) {
        Ok(Some(message)) => match boxed(alloc, old, message) {
            Ok(message) => Ok(message),
            Err(_) => Err(MEMORY),
        },
        Ok(None) => Err(ABSENT),
        Err(_) => Err(MEMORY),
    }
}

/// Makes a message that shows that a difference breaks reading, in place of what the handle of the message held: a message of the type of this
/// number in the old pool whose canonical bytes are refused by the type of that number in the new one, or read as a message that does not agree.
/// The difference is one that `mb_compat` reports of these two types; its severity is not read.
///
/// Answers DONE; EMPTY where a handle of a pool holds nothing; NO_TYPE where a pool has no such type; ABSENT where the comparison leads to no such
/// types, nothing breaks at the field of that number, or only more than 99 fields lead to the types; or MEMORY. The handle of the message is changed at
/// DONE alone.
#[unsafe(no_mangle)]
pub extern "C" fn mb_compat_witness(
    alloc: Global,
    old_pool: &mut PoolHandle,
    old_type: u32,
    new_pool: &mut PoolHandle,
    new_type: u32,
    difference: &DifferenceReport,
    message: &mut MessageHandle,
) -> u32
    ensures shown { result ≡ DONE → (ts us : Types) × HasType (types_held old_pool.old) old_type ts
        × HasType (types_held new_pool.old) new_type us × (w : Dynamic)
        × (message.new.seal.message ≡ Some w) × IsShown ts us old_type new_type difference.now w }
    ensures absent { result ≡ ABSENT → (ts us : Types)
        × HasType (types_held old_pool.old) old_type ts
        × HasType (types_held new_pool.old) new_type us
        × IsUnshown ts us old_type new_type difference.now }
    ensures kept { result ≢ DONE → message.new ≡ message.old }
    ensures empty { result ≡ EMPTY ↔ (types_held old_pool.old ≡ None)
        ⊎ (types_held new_pool.old ≡ None) }
    ensures no_type { result ≡ NO_TYPE → LacksType (types_held old_pool.old) old_type
        ⊎ LacksType (types_held new_pool.old) new_type }
    ensures typed { (ts us : Types) → HasType (types_held old_pool.old) old_type ts
        → HasType (types_held new_pool.old) new_type us
        → (result ≡ DONE) ⊎ (result ≡ ABSENT) ⊎ (result ≡ MEMORY) }
    ensures answers { (result ≡ DONE) ⊎ (result ≡ EMPTY) ⊎ (result ≡ NO_TYPE) ⊎ (result ≡ ABSENT)
        ⊎ (result ≡ MEMORY) }
    ensures same { (old_pool.new.seal.pool ≡ old_pool.old.seal.pool)
        × (new_pool.new.seal.pool ≡ new_pool.old.seal.pool) }
{
    let Some(from) = take(alloc, old_pool) else {
        return EMPTY;
    };
    let Some(to) = take(alloc, new_pool) else {
        put(old_pool, from);
        return EMPTY;
    };
    let made = witness_of(alloc, &from.pool, old_type, &to.pool, new_type, difference);
    put(old_pool, from);
    put(new_pool, to);
    match made {
        Ok(made) => {
            hold(alloc, message, made);
            DONE
        }
        Err(answer) => answer,
    }
}
