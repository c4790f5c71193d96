//! What a handle holds, freed.

ghost use Rattle.std.specs.Prelude.{◌≡◌};

use pb_c_handles::pool::{PoolHandle, take};
use std::alloc::Global;

/// Frees what a handle holds, which holds nothing then. The pool itself is freed with the last handle that shares it.
#[unsafe(no_mangle)]
pub extern "C" fn mb_pool_free(alloc: Global, pool: &mut PoolHandle)
    ensures left { pool.new.seal.pool ≡ None }
{
    let _ = take(alloc, pool);
}
