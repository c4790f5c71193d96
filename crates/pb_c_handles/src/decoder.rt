//! What C holds of a decoder.

ghost use Rattle.std.specs.Prelude.{◌≡◌, is_some, Option, option_map};

pub mod own;
pub mod seal;

use self::own::OwnDecoder;
use self::seal::DecoderSeal;
use crate::raw_box::RawBox;
use std::alloc::Global;
use std::mem;
use std::ptr::null_mut;

/// A decoder, or nothing: all zeros hold nothing.
#[repr(C)]
#[derive(Drop)]
pub struct DecoderHandle {
    pub seal: DecoderSeal,
    full: bool,
    ghost agrees: { full ≡ is_some seal.decoder },
}

/// Takes out what a handle holds. Nothing is left there.
pub fn take(alloc: Global, handle: &mut DecoderHandle) -> Option<Box<OwnDecoder, Global>>
    ensures taken { option_map (λ b. b.value) result ≡ handle.old.seal.decoder }
    ensures left { handle.new.seal.decoder ≡ None }
{
    // As an argument itself the null pointer gets no proof.
    let at: *mut u8 = null_mut();
    let nothing = DecoderHandle {
        seal: DecoderSeal::blank(alloc, at),
        full: false,
    };
    let DecoderHandle { seal, full } = mem::replace(handle, nothing);
    if full {
        Some(seal.into_parts().into_box())
    } else {
        None
    }
}

/// Puts a decoder into a handle that holds nothing.
pub fn put(handle: &mut DecoderHandle, decoder: Box<OwnDecoder, Global>)
    requires { handle.old.seal.decoder ≡ None }
    ensures { handle.new.seal.decoder ≡ Some decoder.value }
{
    *handle = DecoderHandle {
        seal: DecoderSeal::of_parts(RawBox::of(decoder)),
        full: true,
    };
}

/// Puts a decoder into a handle, in place of what it held.
pub fn hold(alloc: Global, handle: &mut DecoderHandle, decoder: Box<OwnDecoder, Global>)
    ensures { handle.new.seal.decoder ≡ Some decoder.value }
{
    let _ = take(alloc, handle);
    put(handle, decoder);
}
