//! Frames that are passed over unread.

ghost use Rattle.std.specs.Prelude.{◌≡◌, ◌≢◌, ⊤, true, IsOk, IfOk, IfSome, IfNone, OnOk, OnErr};
ghost use Rattle.pb_stream.specs.Next.{TakesSpan};
ghost use Rattle.pb_stream.specs.Passed.{HasFewerSpans, PassesSpans};
ghost use Rattle.pb_stream.specs.Spans.{HasNoSpan};

use crate::length::{MAX_LEN, take_varint};
use crate::passing::pass_over;
use pb_wire::{DeviceFault, Input, read_varint};

/// Passes over this number of frames, whatever they hold, and returns how many bytes they have. None where the input has fewer, or a
/// length among them is none.
pub fn pass_frames<I: Input>(input: &mut I, count: u64) -> Result<Option<u64>, DeviceFault>
    ensures passed { IfOk result (λ o. IfSome o (λ size. IfSome (I.left input.old)
        (λ bytes. PassesSpans count bytes (I.left input.new) size))) }
    ensures none { IfOk result (λ o. IfNone o (IfSome (I.left input.old) (HasFewerSpans count))) }
    ensures kept { OnOk result (I.failures input.new ≡ I.failures input.old) }
    ensures failed { OnErr result (I.failures input.new ≢ I.failures input.old) }
    ensures steady { I.is_steady input.old ≡ true → IsOk result × (I.is_steady input.new ≡ true) }
{
    let mut offset: u64 = 0;
    let mut passed: u64 = 0;
    'frames: while passed < count {
        let Some(size) = pass_frame(input)? else {
            return Ok(None);
        };
        offset = offset.saturating_add(size);
        passed += 1;
    }
    Ok(Some(offset))
}

/// Passes over one frame, and returns how many bytes it has.
fn pass_frame<I: Input>(input: &mut I) -> Result<Option<u64>, DeviceFault>
    ensures passed { IfOk result (λ o. IfSome o (λ size. IfSome (I.left input.old)
        (λ bytes. TakesSpan bytes (I.left input.new) size (λ _. ⊤)))) }
    ensures none { IfOk result (λ o. IfNone o (IfSome (I.left input.old) HasNoSpan)) }
    ensures kept { OnOk result (I.failures input.new ≡ I.failures input.old) }
    ensures failed { OnErr result (I.failures input.new ≢ I.failures input.old) }
    ensures steady { I.is_steady input.old ≡ true → IsOk result × (I.is_steady input.new ≡ true) }
{
    let mut bytes = [0u8; MAX_LEN];
    let taken = take_varint(input, &mut bytes)?;
    let Ok((size, start)) = read_varint(&bytes[..taken]) else {
        return Ok(None);
    };
    let passed = pass_over(input, size)?;
    if passed < size {
        return Ok(None);
    }
    Ok(Some(size.saturating_add(start as u64)))
}
