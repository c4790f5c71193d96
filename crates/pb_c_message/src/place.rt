//! Places, keys and numbers as C says them.

ghost use Rattle.std.specs.Prelude.{◌≡◌, ◌<◌, ◌*◌, None, Some, map, option_map, MatchResult};
ghost use Rattle.std.specs.Int.{cast_signed};
ghost use Rattle.pb_value.specs.View.{key_view};
ghost use Rattle.pb_c_message.specs.Places.{bool_said, int32_said, uint32_said, key_kind, number_key_said, text_key_said, key_said, said, places, step_view};
ghost use Rattle.pb_c_message.specs.Answers.{IsUnsaid};
ghost use Rattle.pb_c_message.specs.Steps.{steps_held};

use crate::miss::Miss;
use crate::steps::Steps;
use crate::value::{
    BOOL, FIELD, INDEX, INT32, INT64, PlainValue, STRING, UINT32, UINT64, all_bits,
};
use pb_place::PlaceStep;
use pb_schema::scalars::low_half;
use pb_value::MapKey;
use std::alloc::Global;

/// The 32 bits of a number that C says as the 64 bits of an integer with its sign.
pub fn int32_said(number: u64) -> Option<i32>
    ensures { result ≡ int32_said number }
{
    let signed = low_half(number).cast_signed();
    if all_bits(signed) == number {
        Some(signed)
    } else {
        None
    }
}

/// The number, where 32 bits hold it.
pub fn uint32_said(number: u64) -> Option<u32>
    ensures { result ≡ uint32_said number }
{
    if number < 0x1_0000_0000 {
        Some(number as u32)
    } else {
        None
    }
}

fn bool_said(number: u64) -> Option<bool>
    ensures { result ≡ bool_said number }
{
    if number == 0 {
        Some(false)
    } else if number == 1 {
        Some(true)
    } else {
        None
    }
}

/// The kind of a map's keys by the kind that their field declares.
fn key_kind(kind: u32) -> u32
    ensures { result ≡ key_kind kind }
{
    if kind == 15 || kind == 17 {
        INT32
    } else if kind == 16 || kind == 18 {
        INT64
    } else if kind == 7 {
        UINT32
    } else if kind == 6 {
        UINT64
    } else {
        kind
    }
}

/// The key of a kind that is no string.
fn number_key(kind: u32, number: u64) -> Option<MapKey>
    ensures { option_map key_view result ≡ number_key_said kind number }
{
    if kind == INT32 {
        Some(MapKey::I32(int32_said(number)?))
    } else if kind == INT64 {
        Some(MapKey::I64(number.cast_signed()))
    } else if kind == UINT32 {
        Some(MapKey::U32(uint32_said(number)?))
    } else if kind == UINT64 {
        Some(MapKey::U64(number))
    } else if kind == BOOL {
        Some(MapKey::Bool(bool_said(number)?))
    } else {
        None
    }
}

/// The string of an index among those that are given.
fn text_key(alloc: Global, number: u64, keys: &[&[u8]]) -> Result<MapKey, Miss>
    ensures { MatchResult result (λ k. text_key_said keys.now number ≡ Some (key_view k))
        (IsUnsaid (text_key_said keys.now number ≡ None)) }
{
    let Some(bytes) = keys.get(number as usize) else {
        return Err(Miss::BadPlace);
    };
    let Ok(text) = std::str::from_utf8(bytes) else {
        return Err(Miss::BadPlace);
    };
    let text = String::from_str(alloc, text)?;
    Ok(MapKey::Text(text))
}

/// The key that a kind and a number say. A string is the one of that index among those that are given, and has to be UTF-8.
#[inline(always)]
pub fn key_of(alloc: Global, kind: u32, number: u64, keys: &[&[u8]]) -> Result<MapKey, Miss>
    ensures { MatchResult result (λ k. key_said keys.now kind number ≡ Some (key_view k))
        (IsUnsaid (key_said keys.now kind number ≡ None)) }
{
    if kind == STRING {
        let key = text_key(alloc, number, keys)?;
        return Ok(key);
    }
    match number_key(key_kind(kind), number) {
        Some(key) => Ok(key),
        None => Err(Miss::BadPlace),
    }
}

/// The step that a kind and a number say.
#[inline(always)]
fn step_of(alloc: Global, step: PlainValue, keys: &[&[u8]]) -> Result<PlaceStep, Miss>
    ensures { MatchResult result (λ p. said keys.now step ≡ Some (step_view p))
        (IsUnsaid (said keys.now step ≡ None)) }
{
    if step.kind == FIELD {
        return match uint32_said(step.number) {
            Some(number) => Ok(PlaceStep::Field(number)),
            None => Err(Miss::BadPlace),
        };
    }
    if step.kind == INDEX {
        return Ok(PlaceStep::Index(step.number as usize));
    }
    let key = key_of(alloc, step.kind, step.number, keys)?;
    Ok(PlaceStep::Key(key))
}

/// The steps of a place, read one after another.
fn read_steps(alloc: Global, place: &[PlainValue], keys: &[&[u8]]) -> Result<Vec<PlaceStep>, Miss>
    ensures { MatchResult result (λ p. places keys.now place.now ≡ Some (map step_view p.items))
        (IsUnsaid (places keys.now place.now ≡ None)) }
{
    let mut steps = Vec::new(alloc);
    for step in place {
        let next = step_of(alloc, *step, keys)?;
        steps.push(next)?;
    }
    Ok(steps)
}

/// The steps of a place.
pub fn place_of(alloc: Global, place: &[PlainValue], keys: &[&[u8]]) -> Result<Steps, Miss>
    ensures { MatchResult result
        (λ p. places keys.now place.now ≡ Some (map step_view (steps_held p)))
        (IsUnsaid (places keys.now place.now ≡ None)) }
{
    match place {
        [step] => {
            let step = step_of(alloc, *step, keys)?;
            Ok(Steps::One(step))
        }
        [first, second] => {
            let first = step_of(alloc, *first, keys)?;
            let second = step_of(alloc, *second, keys)?;
            Ok(Steps::Two([first, second]))
        }
        _ => {
            let steps = read_steps(alloc, place, keys)?;
            Ok(Steps::Several(steps))
        }
    }
}
