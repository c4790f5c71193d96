//! What C holds of a message.

ghost use Rattle.std.specs.Prelude.{◌≡◌, is_some, Option, option_map};

pub mod own;
pub mod seal;

use self::own::OwnMessage;
use self::seal::MessageSeal;
use crate::raw_box::RawBox;
use std::alloc::Global;
use std::mem;
use std::ptr::null_mut;

/// A message, or nothing: all zeros hold nothing.
#[repr(C)]
#[derive(Drop)]
pub struct MessageHandle {
    pub seal: MessageSeal,
    full: bool,
    ghost agrees: { full ≡ is_some seal.message },
}

/// Takes out what a handle holds. Nothing is left there.
pub fn take(alloc: Global, handle: &mut MessageHandle) -> Option<Box<OwnMessage, Global>>
    ensures taken { option_map (λ b. b.value) result ≡ handle.old.seal.message }
    ensures left { handle.new.seal.message ≡ None }
{
    // As an argument itself the null pointer gets no proof.
    let at: *mut u8 = null_mut();
    let nothing = MessageHandle {
        seal: MessageSeal::blank(alloc, at),
        full: false,
    };
    let MessageHandle { seal, full } = mem::replace(handle, nothing);
    if full {
        Some(seal.into_parts().into_box())
    } else {
        None
    }
}

/// Puts a message into a handle that holds nothing.
pub fn put(handle: &mut MessageHandle, message: Box<OwnMessage, Global>)
    requires { handle.old.seal.message ≡ None }
    ensures { handle.new.seal.message ≡ Some message.value }
{
    *handle = MessageHandle {
        seal: MessageSeal::of_parts(RawBox::of(message)),
        full: true,
    };
}

/// Puts a message into a handle, in place of what it held.
pub fn hold(alloc: Global, handle: &mut MessageHandle, message: Box<OwnMessage, Global>)
    ensures { handle.new.seal.message ≡ Some message.value }
{
    let _ = take(alloc, handle);
    put(handle, message);
}
