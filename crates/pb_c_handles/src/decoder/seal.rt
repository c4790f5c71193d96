//! A box of a decoder, or none, whose type says nothing of it to C.

ghost use Rattle.std.specs.Prelude.{◌≡◌, Option};
ghost use Rattle.pb_decode.specs.Decoder.{Decoder};
ghost use Rattle.pb_c_handles.specs.DecoderSeal.{decoder_coded, seal_owns};

use super::own::OwnDecoder;
use crate::raw_box::RawBox;
use std::alloc::Global;
use std::marker::Model;

/// Owns what a box of the decoder owns, where it says that there is one.
#[repr(C)]
#[derive(Drop)]
pub struct DecoderSeal {
    at: *mut u8,
    alloc: Global,
    pub ghost decoder: { Option Decoder } by { decoder_coded },
}

impl Model for DecoderSeal {
    ghost also_owns = { λ s. seal_owns s.alloc s.at s.decoder };
}

impl DecoderSeal {
    /// Holds nothing.
    pub(super) fn blank(alloc: Global, at: *mut u8) -> DecoderSeal
        ensures { result.decoder ≡ None }
    {
        DecoderSeal { at, alloc }
    }

    /// Holds what a box held.
    pub(super) fn of_parts(parts: RawBox<OwnDecoder, Global>) -> DecoderSeal
        ensures { result.decoder ≡ Some parts.value }
    {
        let RawBox { at, alloc } = parts;
        DecoderSeal {
            at: at as *mut u8,
            alloc,
        }
    }

    /// What is held, as the parts of a box.
    pub(super) fn into_parts(self) -> RawBox<OwnDecoder, Global>
        requires { (d : Decoder) × (self.decoder ≡ Some d) }
        ensures { self.decoder ≡ Some result.value }
    {
        let DecoderSeal { at, alloc } = self;
        RawBox {
            at: at as *mut OwnDecoder,
            alloc,
        }
    }
}

// A decoder owns what it has read, and a pool in an `Arc` may be read by any thread, so what is sealed may go to one.
unsafe impl Send for DecoderSeal {}
