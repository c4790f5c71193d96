//! A pool as the bytes of a descriptor set.

ghost use Rattle.std.specs.Prelude.{◌≡◌, ◌≢◌, ◌<◌, ◌≤◌, ◌^◌, ◌↔◌, ◌⊎◌, List, ℕ, None, Some, length, Err, IfOk, IfErr};
ghost use Rattle.pb_schema.specs.Types.{Types};
ghost use Rattle.pb_value.specs.Data.{message_depth};
ghost use Rattle.pb_descr_message.specs.Sets.{set_bytes};
ghost use Rattle.pb_descr_message.specs.Writing.{set_body};
ghost use Rattle.pb_link.specs.ToDecls.{decls_of};
ghost use Rattle.pb_c_handles.specs.Held.{types_held};
ghost use Rattle.pb_c.specs.SetPool.{IsSetOfPool};
ghost use Rattle.pb_c_answers.specs.Reporting.{IsLaid};

use pb_c_answers::{DONE, EMPTY, MEMORY, TOO_DEEP, TOO_LARGE, write_out};
use pb_c_handles::pool::{PoolHandle, put, take};
use pb_descr::{WriteSetError, write_set};
use pb_link::to_decls;
use pb_schema::Pool;
use std::alloc::Global;

/// The bytes of a set of a pool's types, or what a call answers.
fn set_of(alloc: Global, pool: &Pool) -> Result<Vec<u8>, u32>
    ensures set { IfOk result (λ b. IsSetOfPool pool.now b.items) }
    ensures too_large { result ≡ Err TOO_LARGE → 2 ^ 31 ≤ length (set_bytes (decls_of pool.now)) }
    ensures too_deep { result ≡ Err TOO_DEEP → 100 < message_depth (set_body (decls_of pool.now)) }
    ensures answers { IfErr result (λ a. (a ≡ TOO_LARGE) ⊎ (a ≡ TOO_DEEP) ⊎ (a ≡ MEMORY)) }
{
    let Ok(files) = to_decls(alloc, pool) else {
        return Err(MEMORY);
    };
    match write_set(alloc, &files) {
        Ok(set) => Ok(set),
        Err(WriteSetError::TooLarge) => Err(TOO_LARGE),
        Err(WriteSetError::TooDeep) => Err(TOO_DEEP),
        Err(WriteSetError::Memory) => Err(MEMORY),
    }
}

/// Writes the bytes of a set of a pool's types.
fn write_pool(alloc: Global, pool: &Pool, out: &mut [u8], size: &mut usize) -> u32
    ensures written { result ≡ DONE → (b : List ℕ) × IsSetOfPool pool.now b
        × IsLaid b out.old out.new size.new }
    ensures too_large { result ≡ TOO_LARGE → 2 ^ 31 ≤ length (set_bytes (decls_of pool.now)) }
    ensures too_deep { result ≡ TOO_DEEP → 100 < message_depth (set_body (decls_of pool.now)) }
    ensures unwritten { result ≢ DONE → (out.new ≡ out.old) × (size.new ≡ size.old) }
    ensures answers { (result ≡ DONE) ⊎ (result ≡ TOO_LARGE) ⊎ (result ≡ TOO_DEEP)
        ⊎ (result ≡ MEMORY) }
{
    match set_of(alloc, pool) {
        Ok(set) => {
            write_out(&set, out, size);
            DONE
        }
        Err(answer) => answer,
    }
}

/// Writes the bytes of a descriptor set that declares the pool's types, as many as the buffer holds, and reports how many there are. Linking them
/// makes the same types again: what a pool does not hold, as services and options, is not in them.
///
/// Answers DONE; EMPTY where the handle holds nothing; TOO_LARGE where they would be more than 2^31 - 1; TOO_DEEP where the set would nest more
/// than 100 levels deep, as one of no pool that `mb_pool_link` makes does; or MEMORY. The bytes and their number are written at DONE alone.
#[unsafe(no_mangle)]
pub extern "C" fn mb_pool_set(
    alloc: Global,
    pool: &mut PoolHandle,
    out: &mut [u8],
    size: &mut usize,
) -> u32
    ensures written { result ≡ DONE → (ts : Types) × (types_held pool.old ≡ Some ts)
        × ((b : List ℕ) × IsSetOfPool ts b × IsLaid b out.old out.new size.new) }
    ensures too_large { result ≡ TOO_LARGE → (ts : Types) × (types_held pool.old ≡ Some ts)
        × (2 ^ 31 ≤ length (set_bytes (decls_of ts))) }
    ensures too_deep { result ≡ TOO_DEEP → (ts : Types) × (types_held pool.old ≡ Some ts)
        × (100 < message_depth (set_body (decls_of ts))) }
    ensures unwritten { result ≢ DONE → (out.new ≡ out.old) × (size.new ≡ size.old) }
    ensures empty { result ≡ EMPTY ↔ (types_held pool.old ≡ None) }
    ensures answers { (result ≡ DONE) ⊎ (result ≡ EMPTY) ⊎ (result ≡ TOO_LARGE)
        ⊎ (result ≡ TOO_DEEP) ⊎ (result ≡ MEMORY) }
    ensures same { pool.new.seal.pool ≡ pool.old.seal.pool }
{
    let Some(shared) = take(alloc, pool) else {
        return EMPTY;
    };
    let answer = write_pool(alloc, &shared.pool, out, size);
    put(pool, shared);
    answer
}
