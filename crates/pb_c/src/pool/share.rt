//! One pool for several handles.

ghost use Rattle.std.specs.Prelude.{◌≡◌, ◌≢◌, ◌↔◌, ◌⊎◌, IfOk};
ghost use Rattle.pb_c_handles.specs.Held.{names_held, types_held};

use pb_c_answers::{DONE, EMPTY, MEMORY};
use pb_c_handles::pool::shared::Shared;
use pb_c_handles::pool::{PoolHandle, put, take};
use std::alloc::{AllocError, Global};
use std::sync::Arc;

/// A further box of the same pool and names.
fn again(alloc: Global, shared: &Shared) -> Result<Box<Shared, Global>, AllocError>
    ensures same { IfOk result (λ b. b.value.pool.value ≡ shared.now.pool.value) }
    ensures names { IfOk result (λ b. b.value.names.value ≡ shared.now.names.value) }
{
    let pool = Arc::try_clone(&shared.pool)?;
    let names = Arc::try_clone(&shared.names)?;
    Ok(Box::new(alloc, Shared { pool, names })?)
}

/// Puts the pool that one handle holds, and its names, into another one too, in place of what that held: both hold one pool, which is freed with
/// the last of them. The other handle may go to another thread.
///
/// Answers DONE; EMPTY where the first handle holds nothing; or MEMORY. The other handle is changed at DONE alone.
#[unsafe(no_mangle)]
pub extern "C" fn mb_pool_share(alloc: Global, pool: &mut PoolHandle, other: &mut PoolHandle) -> u32
    ensures same { pool.new.seal.pool ≡ pool.old.seal.pool }
    ensures shared { result ≡ DONE → types_held other.new ≡ types_held pool.old }
    ensures names { result ≡ DONE → names_held other.new ≡ names_held pool.old }
    ensures unshared { result ≢ DONE → other.new ≡ other.old }
    ensures empty { result ≡ EMPTY ↔ (types_held pool.old ≡ None) }
    ensures answers { (result ≡ DONE) ⊎ (result ≡ EMPTY) ⊎ (result ≡ MEMORY) }
{
    let Some(shared) = take(alloc, pool) else {
        return EMPTY;
    };
    let made = again(alloc, &shared);
    put(pool, shared);
    let Ok(made) = made else {
        return MEMORY;
    };
    let _ = take(alloc, other);
    put(other, made);
    DONE
}
