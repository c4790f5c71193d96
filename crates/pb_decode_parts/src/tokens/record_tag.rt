//! Whole tags, and why the first tag of a group is refused.

ghost use Rattle.std.specs.Prelude.{◌≢◌, ◌≤◌, ◌<◌, ℕ, length, IfSome, IfNone};
ghost use Rattle.pb_wire.specs.Fault.{HasTag};
ghost use Rattle.pb_wire.specs.Scan.{given_at, passed};
ghost use Rattle.pb_wire.specs.declared.fault.Cause.TheVariants.{Truncated};
ghost use Rattle.pb_decode_parts.specs.Tokens.Reported.{RefusesGroup};

use pb_wire::{Cause, Scanned, scan_varint, tag_of};

/// A whole tag.
#[derive(Clone, Copy)]
pub struct RecordTag {
    pub number: u32,
    pub wire_type: u8,
    /// How many bytes it takes.
    pub size: usize,
}

/// The tag at the start of some bytes, with this many bytes before the known end, if it is complete there.
pub fn record_tag(bytes: &[u8], left: Option<u32>) -> Option<RecordTag>
    ensures within { IfSome result (λ t. (0 < t.size) × (t.size ≤ length bytes.now)) }
    ensures whole { (at : ℕ) → IfSome result (λ t. HasTag (given_at at left bytes.now) t.number t.wire_type (passed (given_at at left bytes.now) t.size)) }
{
    let Scanned::Whole(tag, size) = scan_varint(bytes, left) else {
        return None;
    };
    let Ok(tag) = tag_of(tag) else {
        return None;
    };
    Some(RecordTag {
        number: tag.number,
        wire_type: tag.wire_type,
        size,
    })
}

/// Why a group is refused in a part with this many levels left.
pub fn group_refusal(depth_left: u8) -> Option<Cause>
    ensures allowed { IfNone result (0 < depth_left) }
    ensures settled { IfSome result (λ c. c ≢ Truncated) }
    ensures refused { RefusesGroup depth_left result }
{
    if depth_left == 0 {
        Some(Cause::TooDeep)
    } else {
        None
    }
}
