//! What C holds of a pool.

ghost use Rattle.std.specs.Prelude.{◌≡◌, is_some, Option, option_map};

pub mod seal;
pub mod shared;

use self::seal::PoolSeal;
use self::shared::Shared;
use crate::raw_box::RawBox;
use std::alloc::Global;
use std::mem;
use std::ptr::null_mut;

/// A pool, or nothing: all zeros hold nothing.
#[repr(C)]
#[derive(Drop)]
pub struct PoolHandle {
    pub seal: PoolSeal,
    full: bool,
    ghost agrees: { full ≡ is_some seal.pool },
}

/// Takes out what a handle holds. Nothing is left there.
pub fn take(alloc: Global, handle: &mut PoolHandle) -> Option<Box<Shared, Global>>
    ensures taken { option_map (λ b. b.value) result ≡ handle.old.seal.pool }
    ensures left { handle.new.seal.pool ≡ None }
{
    // As an argument itself the null pointer gets no proof.
    let at: *mut u8 = null_mut();
    let nothing = PoolHandle {
        seal: PoolSeal::blank(alloc, at),
        full: false,
    };
    let PoolHandle { seal, full } = mem::replace(handle, nothing);
    if full {
        Some(seal.into_parts().into_box())
    } else {
        None
    }
}

/// Puts a pool into a handle that holds nothing.
pub fn put(handle: &mut PoolHandle, shared: Box<Shared, Global>)
    requires { handle.old.seal.pool ≡ None }
    ensures { handle.new.seal.pool ≡ Some shared.value }
{
    *handle = PoolHandle {
        seal: PoolSeal::of_parts(RawBox::of(shared)),
        full: true,
    };
}
