//! The length before a message.

ghost use Rattle.std.specs.Prelude.{◌≡◌, ◌≢◌, ◌<◌, ◌≤◌, ℕ, [], ◌∷◌, true, Some, Err, length, take, IfOk, IfErr, IfSome, IfNone, IsOk, OnOk, OnErr};
ghost use Rattle.std.specs.Io.KnownBytes.{Consumes, Keeps, IsAtEnd};
ghost use Rattle.pb_schema.specs.Types.{Types};
ghost use Rattle.pb_decode.specs.declared.error.DecodeError.TheVariants.{Memory, Device};
ghost use Rattle.pb_decode.specs.FromDevice.{IfRefused, TellsFailures};
ghost use Rattle.pb_stream.specs.Frame.{FrameFault};
ghost use Rattle.pb_stream.specs.Taking.{StaysInFrame, TakesLength, TakesNone};
ghost use Rattle.pb_stream.specs.Loops.{TakesHigh, EndsVarint};

use pb_decode::DecodeError;
use pb_wire::{Cause, DeviceFault, Input, Limits, read_varint};
use std::alloc::Global;

/// The most bytes that a length has.
pub(crate) const MAX_LEN: usize = 10;

/// The length before a message: `start` bytes that encode `size`.
#[derive(Clone, Copy)]
pub(crate) struct Header {
    pub(crate) start: usize,
    pub(crate) size: u32,
}

/// Takes one byte, if one is left.
fn next_byte<I: Input>(input: &mut I) -> Result<Option<u8>, DeviceFault>
    ensures taken { IfOk result
        (λ o. IfSome o (λ b. Consumes (I.left input.old) (I.left input.new) (b ∷ []))) }
    ensures end { IfOk result (λ o. IfNone o (Consumes (I.left input.old) (I.left input.new) []
        × IsAtEnd (I.left input.new))) }
    ensures kept { OnOk result (I.failures input.new ≡ I.failures input.old) }
    ensures failed { OnErr result (Keeps (I.left input.old) (I.left input.new)
        × (I.failures input.new ≢ I.failures input.old)) }
    ensures steady { I.is_steady input.old ≡ true → IsOk result × (I.is_steady input.new ≡ true) }
{
    let mut byte = [0u8];
    match input.read(&mut byte)? {
        0 => Ok(None),
        _ => Ok(Some(byte[0])),
    }
}

/// Takes the bytes of a varint one by one, since no byte past the frame may be taken: up to the first that is below 128,
/// ten of them, or all that are left. Answers how many there are.
pub(crate) fn take_varint<I: Input>(
    input: &mut I,
    bytes: &mut [u8; MAX_LEN],
) -> Result<usize, DeviceFault>
    ensures within { IfOk result (λ n. n ≤ 10) }
    ensures taken { IfOk result
        (λ n. Consumes (I.left input.old) (I.left input.new) (take n bytes.new)) }
    ensures ends { IfOk result (λ n. EndsVarint (take n bytes.new) (I.left input.new)) }
    ensures cut { OnErr result (TakesHigh (I.left input.old) (I.left input.new)) }
    ensures kept { OnOk result (I.failures input.new ≡ I.failures input.old) }
    ensures failed { OnErr result (I.failures input.new ≢ I.failures input.old) }
    ensures steady { I.is_steady input.old ≡ true → IsOk result × (I.is_steady input.new ≡ true) }
{
    for count in 0..MAX_LEN {
        let Some(byte) = next_byte(input)? else {
            return Ok(count);
        };
        bytes[count] = byte;
        if byte < 0x80 {
            return Ok(count + 1);
        }
    }
    Ok(MAX_LEN)
}

/// Reads the length before a message, or nothing at the end of the input. Takes no byte after it.
pub(crate) fn read_length<I: Input>(
    alloc: Global,
    input: &mut I,
    limits: Limits,
) -> Result<Option<Header>, DecodeError>
    ensures end { IfOk result (λ o. IfNone o (TakesNone (I.left input.old) (I.left input.new))) }
    ensures length { IfOk result
        (λ o. IfSome o (λ h. TakesLength h.start h.size (I.left input.old) (I.left input.new))) }
    ensures small { IfOk result (λ o. IfSome o (λ h. (h.start ≤ 10) × (h.size ≤ limits.bytes))) }
    ensures fault { IfErr result
        (λ e. IfRefused e (λ f. IfSome (I.left input.old)
        (λ left. (pool : Types) (m : ℕ) → FrameFault pool m limits left f))) }
    ensures within { OnErr result (StaysInFrame limits (I.left input.old) (I.left input.new)) }
    ensures failures { TellsFailures result (I.failures input.old) (I.failures input.new) }
    ensures plain { result ≢ Err Memory }
    ensures steady { I.is_steady input.old ≡ true → result ≢ Err Device }
    ensures stays { I.is_steady input.old ≡ true → I.is_steady input.new ≡ true }
{
    let mut bytes = [0u8; MAX_LEN];
    let Ok(taken) = take_varint(input, &mut bytes) else {
        return Err(DecodeError::Device);
    };
    if taken == 0 {
        return Ok(None);
    }
    match read_varint(&bytes[..taken]) {
        Err(fault) => Err(DecodeError::Fault {
            byte: fault.byte,
            path: Vec::new(alloc),
            cause: fault.cause,
        }),
        Ok((length, _)) if length > u64::from(limits.max_bytes()) => Err(DecodeError::Fault {
            byte: 0,
            path: Vec::new(alloc),
            cause: Cause::LengthTooLarge,
        }),
        Ok((length, start)) => Ok(Some(Header {
            start,
            size: length as u32,
        })),
    }
}
