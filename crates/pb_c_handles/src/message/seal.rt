//! A box of a message, or none, whose type says nothing of it to C.

ghost use Rattle.std.specs.Prelude.{◌≡◌, Option};
ghost use Rattle.pb_value.specs.Dynamic.{Dynamic};
ghost use Rattle.pb_c_handles.specs.MessageSeal.{message_coded, seal_owns};

use super::own::OwnMessage;
use crate::raw_box::RawBox;
use std::alloc::Global;
use std::marker::Model;

/// Owns what a box of the message owns, where it says that there is one.
#[repr(C)]
#[derive(Drop)]
pub struct MessageSeal {
    at: *mut u8,
    alloc: Global,
    pub ghost message: { Option Dynamic } by { message_coded },
}

impl Model for MessageSeal {
    ghost also_owns = { λ s. seal_owns s.alloc s.at s.message };
}

impl MessageSeal {
    /// Holds nothing.
    pub(super) fn blank(alloc: Global, at: *mut u8) -> MessageSeal
        ensures { result.message ≡ None }
    {
        MessageSeal { at, alloc }
    }

    /// Holds what a box held.
    pub(super) fn of_parts(parts: RawBox<OwnMessage, Global>) -> MessageSeal
        ensures { result.message ≡ Some parts.value }
    {
        let RawBox { at, alloc } = parts;
        MessageSeal {
            at: at as *mut u8,
            alloc,
        }
    }

    /// What is held, as the parts of a box.
    pub(super) fn into_parts(self) -> RawBox<OwnMessage, Global>
        requires { (m : Dynamic) × (self.message ≡ Some m) }
        ensures { self.message ≡ Some result.value }
    {
        let MessageSeal { at, alloc } = self;
        RawBox {
            at: at as *mut OwnMessage,
            alloc,
        }
    }
}

// A message owns what it holds, and a pool in an `Arc` may be read by any thread, so what is sealed may go to one.
unsafe impl Send for MessageSeal {}
