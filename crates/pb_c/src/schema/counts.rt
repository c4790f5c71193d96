//! How much a pool declares.

ghost use Rattle.std.specs.Prelude.{◌≡◌, ◌≢◌, ◌↔◌, ◌⊎◌, None, Some};
ghost use Rattle.pb_schema.specs.Types.{Types};
ghost use Rattle.pb_c_handles.specs.Held.{types_held};
ghost use Rattle.pb_c.specs.PoolParts.{pool_counts};

use pb_c_answers::{DONE, EMPTY};
use pb_c_handles::pool::{PoolHandle, put, take};
use pb_schema::Pool;
use std::alloc::Global;

/// How many files, message types and enums a pool has.
#[repr(C)]
#[derive(Clone, Copy, Debug, PartialEq, Eq)]
pub struct PoolCounts {
    pub files: usize,
    pub messages: usize,
    pub enums: usize,
}

fn count(pool: &Pool) -> PoolCounts
    ensures { result ≡ pool_counts pool.now }
{
    PoolCounts {
        files: pool.files().len(),
        messages: pool.messages().len(),
        enums: pool.enums().len(),
    }
}

/// Reports how many files, message types and enums the pool has. Their numbers are those below these counts.
///
/// Answers DONE; or EMPTY where the handle holds nothing. The counts are written at DONE alone.
#[unsafe(no_mangle)]
pub extern "C" fn mb_pool_counts(
    alloc: Global,
    pool: &mut PoolHandle,
    counts: &mut PoolCounts,
) -> u32
    ensures counted { result ≡ DONE → (ts : Types) × (types_held pool.old ≡ Some ts)
        × (counts.new ≡ pool_counts ts) }
    ensures uncounted { result ≢ DONE → counts.new ≡ counts.old }
    ensures empty { result ≡ EMPTY ↔ (types_held pool.old ≡ None) }
    ensures answers { (result ≡ DONE) ⊎ (result ≡ EMPTY) }
    ensures same { pool.new.seal.pool ≡ pool.old.seal.pool }
{
    let Some(shared) = take(alloc, pool) else {
        return EMPTY;
    };
    *counts = count(&shared.pool);
    put(pool, shared);
    DONE
}
