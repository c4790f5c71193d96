//! A box, or none, whose type says nothing of it to C.

ghost use Rattle.std.specs.Prelude.{◌≡◌, Option};
ghost use Rattle.pb_c_handles.specs.declared.pool.shared.Shared.{Shared};
ghost use Rattle.pb_c_handles.specs.PoolSeal.{pool_coded, seal_owns};

use super::shared::Shared;
use crate::raw_box::RawBox;
use std::alloc::Global;
use std::marker::Model;

/// Owns what a box of the pool owns, where it says that there is one.
#[repr(C)]
#[derive(Drop)]
pub struct PoolSeal {
    at: *mut u8,
    alloc: Global,
    pub ghost pool: { Option Shared } by { pool_coded },
}

impl Model for PoolSeal {
    ghost also_owns = { λ s. seal_owns s.alloc s.at s.pool };
}

impl PoolSeal {
    /// Holds nothing.
    pub(super) fn blank(alloc: Global, at: *mut u8) -> PoolSeal
        ensures { result.pool ≡ None }
    {
        PoolSeal { at, alloc }
    }

    /// Holds what a box held.
    pub(super) fn of_parts(parts: RawBox<Shared, Global>) -> PoolSeal
        ensures { result.pool ≡ Some parts.value }
    {
        let RawBox { at, alloc } = parts;
        PoolSeal {
            at: at as *mut u8,
            alloc,
        }
    }

    /// What is held, as the parts of a box.
    pub(super) fn into_parts(self) -> RawBox<Shared, Global>
        requires { (s : Shared) × (self.pool ≡ Some s) }
        ensures { self.pool ≡ Some result.value }
    {
        let PoolSeal { at, alloc } = self;
        RawBox {
            at: at as *mut Shared,
            alloc,
        }
    }
}

// A pool in an `Arc` may be read by any thread, so what is sealed may go to one.
unsafe impl Send for PoolSeal {}
