//! What comes next.

ghost use Rattle.std.specs.Prelude.{◌≡◌, ◌≢◌, ◌<◌, true, false, Some};
ghost use Rattle.pb_decode_parts.specs.declared.tokens.step.Step.TheVariants as steps;
ghost use Rattle.pb_decode_parts.specs.Open.Parents.{CanHold};
ghost use Rattle.pb_decode_parts.specs.Open.PartView.{part_view};
ghost use Rattle.pb_decode_parts.specs.Tokens.After.{goes_down, HasLevelFor};
ghost use Rattle.pb_decode_parts.specs.Tokens.Reported.{GoesOnAfterTag, IsTooDeep, BeginsList, BeginsPayload};

use crate::{Part, Scope, Slot, Target, target_of};
use pb_schema::{Kind, Pool};

/// What comes next. A value and a length have the number of the tag before them, and what their record is for.
#[derive(Clone, Copy)]
pub enum Step {
    /// A tag, or the end of the open part.
    Tag,
    Varint(u32, Target),
    I64(u32, Target),
    I32(u32, Target),
    Length(u32, Target),
    /// A payload of this many bytes.
    Payload(u32, Target, u32),
    /// Elements of a packed list, up to their known end. After them the part goes on to its own end, which this is.
    Elements(u32, Kind, Option<u32>),
}

/// Says that a level is left for what a record with this target opens.
pub fn has_level(depth_left: u8, target: Target) -> bool
    ensures depth_left { result ≡ true → HasLevelFor depth_left target }
    ensures deep { result ≡ false → (goes_down target ≡ true) × (depth_left ≡ 0) }
{
    match target {
        Target::Message(_, Slot::Entry) => true,
        Target::Message(_, _) | Target::Entry(_, _) => depth_left > 0,
        _ => true,
    }
}

/// What comes after the tag of a record, which is no group, in a part with this many levels left. There is none where the
/// record would open one level too many.
pub fn tag_step(
    pool: &Pool,
    part: &Part,
    depth_left: u8,
    number: u32,
    wire_type: u8,
) -> Option<Step>
    requires can { CanHold pool.now (part_view part.now) }
    requires known { wire_type < 6 }
    requires no_start { wire_type ≢ 3 }
    requires no_end { wire_type ≢ 4 }
    ensures goes_on { GoesOnAfterTag pool.now part.now depth_left number wire_type result }
    ensures too_deep { IsTooDeep pool.now part.now depth_left number wire_type result }
{
    let target = target_of(pool, part, number, wire_type);
    if !has_level(depth_left, target) {
        return None;
    }
    match wire_type {
        0 => Some(Step::Varint(number, target)),
        1 => Some(Step::I64(number, target)),
        2 => Some(Step::Length(number, target)),
        _ => Some(Step::I32(number, target)),
    }
}

/// After the length of a packed list its elements come next, up to its end.
pub fn begin_list(scope: &mut Scope, number: u32, kind: Kind, end: u32) -> Step
    ensures step { result ≡ steps.Elements number kind scope.old.end }
    ensures end { scope.new.end ≡ Some end }
    ensures after { BeginsList number kind end scope.old scope.new result }
{
    let outer = scope.end;
    scope.end = Some(end);
    Step::Elements(number, kind, outer)
}

/// After a length whose record opens nothing its payload comes next.
pub fn begin_payload(number: u32, target: Target, size: u32) -> Step
    ensures step { result ≡ steps.Payload number target size }
    ensures after { BeginsPayload number target size result }
{
    Step::Payload(number, target, size)
}
