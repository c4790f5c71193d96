//! Texts that have the bytes of a message.

ghost use Rattle.std.specs.Prelude.{◌≡◌, ◌≤◌, length, IfOk, IfErr};
ghost use Rattle.pb_wire.specs.Limits.{full};
ghost use Rattle.pbtool_encodings.specs.Names.{cause_name, encoding_name};
ghost use Rattle.pbtool_encodings.specs.Decoding.{HasBytes, IsNoText, digits_of};
ghost use Rattle.pbtool_encodings.specs.Hexadecimal.{IsReadAs};

use crate::base64_text::read_base64_text;
use crate::hexadecimal::read_hexadecimal;
use pb_wire::Limits;
use std::alloc::{AllocError, AllocFailed, Global};

/// How a file has the bytes of a message.
#[derive(Clone, Copy, Debug, PartialEq, Eq)]
pub enum Encoding {
    /// Two digits for each byte, with blanks between these.
    Hexadecimal,
    /// As RFC 4648 has it, with blanks anywhere.
    Base64,
}

/// Why a text is refused.
#[derive(Clone, Copy, Debug, PartialEq, Eq)]
pub enum TextCause {
    /// A byte is none of the digits of a message's byte, or the text ends within them.
    BadDigit,
    /// The text has more than 2^31 - 1 bytes.
    InputTooLarge,
}

/// Where a text is refused, by the number of the byte from 0, and why.
#[derive(Clone, Copy, Debug, PartialEq, Eq)]
pub struct BadText {
    pub byte: usize,
    pub cause: TextCause,
}

/// Why a text is not read.
#[derive(Debug, Drop)]
pub(crate) enum DecodeError {
    /// The byte of this number is no digit.
    At(usize),
    Memory,
}

impl From<AllocError> for DecodeError {
    ghost use Rattle.pbtool_encodings.specs.declared.encoding.DecodeError.TheVariants.{Memory};

    ghost from_gives = { λ _ r. r ≡ Memory };

    fn from(_error: AllocError) -> DecodeError {
        DecodeError::Memory
    }
}

impl<T: Drop> From<AllocFailed<T>> for DecodeError {
    ghost use Rattle.pbtool_encodings.specs.declared.encoding.DecodeError.TheVariants.{Memory};

    ghost from_gives = { λ _ r. r ≡ Memory };

    fn from(_error: AllocFailed<T>) -> DecodeError {
        DecodeError::Memory
    }
}

impl Encoding {
    /// The name in reports.
    pub fn name(self) -> &'static str
        ensures { result.now ≡ encoding_name self }
    {
        match self {
            Encoding::Hexadecimal => "hex",
            Encoding::Base64 => "base64",
        }
    }
}

impl TextCause {
    /// The name in reports.
    pub fn name(self) -> &'static str
        ensures { result.now ≡ cause_name self }
    {
        match self {
            TextCause::BadDigit => "BadDigit",
            TextCause::InputTooLarge => "InputTooLarge",
        }
    }
}

impl Encoding {
    /// The bytes that a text has in this encoding; or why it is none, unless memory runs out, which is `None`.
    pub fn decode(self, alloc: Global, text: &[u8]) -> Result<Vec<u8>, Option<BadText>>
        ensures bytes { IfOk result (λ v. HasBytes self text.now v.items) }
        ensures refused { IfErr result (IsNoText self text.now) }
    {
        let most = Limits::FULL.max_bytes() as usize;
        if text.len() > most {
            return Err(Some(BadText {
                byte: most,
                cause: TextCause::InputTooLarge,
            }));
        }
        match self.digits(alloc, text) {
            Ok(bytes) => Ok(bytes),
            Err(DecodeError::At(byte)) => Err(Some(BadText {
                byte,
                cause: TextCause::BadDigit,
            })),
            Err(DecodeError::Memory) => Err(None),
        }
    }

    /// The bytes whose digits a text has in this encoding.
    fn digits(self, alloc: Global, text: &[u8]) -> Result<Vec<u8>, DecodeError>
        requires { length text.now ≤ full.bytes }
        ensures { IsReadAs (digits_of self text.now) result }
    {
        match self {
            Encoding::Hexadecimal => read_hexadecimal(alloc, text),
            Encoding::Base64 => read_base64_text(alloc, text),
        }
    }
}
