//! A reader from where it begins to the end of its message.

ghost use Rattle.std.specs.Prelude.{◌≡◌, true, false, ◌+◌, ◌<◌, ◌≤◌, ◌^◌, ℕ, List, [], length, None, OnOk, OnErr, IfOk, IfErr};
ghost use Rattle.pb_wire.specs.Record.{Record};
ghost use Rattle.pb_schema.specs.Types.{Types};
ghost use Rattle.pb_schema.specs.Rules.{IsPool};
ghost use Rattle.pb_value.specs.Data.{Message};
ghost use Rattle.pb_value.specs.Value.{value};
ghost use Rattle.pb_value.specs.View.{body_view};
ghost use Rattle.pb_value.specs.WellFormed.{IsWellFormed};
ghost use Rattle.pb_decode_parts.specs.Open.Parents.{message_part};
ghost use Rattle.pb_decode_parts.specs.Open.PartView.{part_view};
ghost use Rattle.pb_decode.specs.Reader.{state_view, IfFault};
ghost use Rattle.pb_decode.specs.Reader.Waiting.{Waits};
ghost use Rattle.pb_decode.specs.Reader.Start.{Start, starting, further, IsOverAt, IsWhole, BadFrom, ReportedFrom};
ghost use Rattle.pb_decode.specs.Reader.Pieces.{received, ReadFrom};

use crate::error::DecodeError;
use crate::push::{Reading, cut_short, take_piece};
use crate::reader::state::State;
use pb_decode_parts::{Occurrences, Part, Scope, Step};
use pb_schema::{MessageId, Pool};
use pb_value::bodies::{empty_body, from_well_formed};
use pb_value::{Body, DynamicMessage};
use pb_wire::Limits;
use std::alloc::Global;

/// A reader at position 0 that merges what it reads into a message with this body, with `depth_left` levels left, up to the known end if
/// there is one.
pub(crate) fn begin_at(
    alloc: Global,
    message_type: MessageId,
    body: Body,
    depth_left: u8,
    end: Option<u32>,
) -> Reading
    requires { depth_left ≤ 100 }
    ensures at { (result.reader.at ≡ 0) × (length result.held.items ≡ 0) }
    ensures waits { end ≡ None → Waits (state_view result.reader) result.held.items }
    ensures took { (pool : Types) (base : List Record) → message_type.0 < length pool.messages → IsWellFormed pool message_type.0 (body_view body)
        → body_view body ≡ value pool message_type.0 base → ReadFrom pool (starting message_type.0 depth_left base end) result }
{
    let occurrences = Occurrences::new(alloc);
    let parents = Vec::new(alloc);
    let held = Vec::new(alloc);
    Reading {
        reader: State {
            at: 0,
            part: Part::Message(message_type, body),
            scope: Scope {
                depth_left,
                end,
                occurrences,
            },
            parents,
            step: Step::Tag,
        },
        held,
    }
}

/// A reader at position 0 of a message that is empty so far, up to the known end if there is one.
pub(crate) fn begin_empty(
    alloc: Global,
    pool: &Pool,
    message_type: MessageId,
    limits: Limits,
    end: Option<u32>,
) -> Reading
    requires { message_type.0 < length pool.now.messages }
    ensures at { (result.reader.at ≡ 0) × (length result.held.items ≡ 0) }
    ensures waits { end ≡ None → Waits (state_view result.reader) result.held.items }
    ensures took { ReadFrom pool.now (starting message_type.0 limits.depth [] end) result }
{
    let depth_left = limits.max_depth();
    begin_at(alloc, message_type, empty_body(alloc), depth_left, end)
}

/// Takes a piece after the bytes that are held.
pub(crate) fn take_onward(
    alloc: Global,
    pool: &Pool,
    reading: &mut Reading,
    piece: &[u8],
) -> Result<(), DecodeError>
    requires rules { IsPool pool.now }
    requires took { (o : Start) × ReadFrom pool.now o reading.old }
    requires small { received reading.old + length piece.now < 2 ^ 31 }
    ensures at { OnOk result (received reading.new ≡ received reading.old + length piece.now) }
    ensures took { (o : Start) → ReadFrom pool.now o reading.old → OnOk result (ReadFrom pool.now (further o piece.now) reading.new) }
    ensures fault { (o : Start) → ReadFrom pool.now o reading.old → IfErr result (λ e. IfFault e (ReportedFrom pool.now (further o piece.now))) }
{
    take_piece(alloc, pool, reading, piece)
}

/// Says that nothing is open but the message, and that it ends here: at its known end, or if none is known with the bytes.
fn is_over(reading: &Reading) -> bool
    ensures over { result ≡ true → IsOverAt (state_view reading.now.reader) reading.now.held.items }
    ensures goes_on { result ≡ false → IsOverAt (state_view reading.now.reader) reading.now.held.items → ⊥ }
{
    let ends = match reading.reader.left() {
        None => reading.held.is_empty(),
        Some(left) => left == 0,
    };
    match reading.reader.step {
        Step::Tag => reading.reader.parents.is_empty() && ends,
        _ => false,
    }
}

/// The body of a part that is a message.
fn body_of(part: Part) -> Result<Body, DecodeError>
    ensures message { IfOk result (λ body. (k : ℕ) × (part_view part ≡ message_part k (body_view body))) }
    ensures other { OnErr result ((k : ℕ) (v : Message) → part_view part ≡ message_part k v → ⊥) }
{
    match part {
        Part::Message(_, body) => Ok(body),
        Part::Entry(_) => Err(DecodeError::Finished),
        Part::Group(_) => Err(DecodeError::Finished),
    }
}

/// The body of the message that is read, or the fault that it is cut short.
fn whole_body(alloc: Global, pool: &Pool, reading: Reading) -> Result<Body, DecodeError>
    requires rules { IsPool pool.now }
    requires took { (o : Start) × ReadFrom pool.now o reading }
    requires small { received reading < 2 ^ 31 }
    ensures well_formed { (o : Start) → ReadFrom pool.now o reading → IfOk result (λ v. IsWellFormed pool.now o.kind (body_view v)) }
    ensures whole { (o : Start) → ReadFrom pool.now o reading → IfOk result (λ v. IsWhole pool.now o (body_view v)) }
    ensures fault { (o : Start) → ReadFrom pool.now o reading → IfErr result (λ e. IfFault e (BadFrom pool.now o)) }
{
    if !is_over(&reading) {
        return Err(cut_short(alloc, &reading));
    }
    body_of(reading.reader.part)
}

/// The message that is read, or the fault that it is cut short.
pub(crate) fn finish_message<'p>(
    alloc: Global,
    pool: &'p Pool,
    message_type: MessageId,
    reading: Reading,
) -> Result<DynamicMessage<'p>, DecodeError>
    requires rules { IsPool pool.now }
    requires within { message_type.0 < length pool.now.messages }
    requires took { (o : Start) × (o.kind ≡ message_type.0) × ReadFrom pool.now o reading }
    requires small { received reading < 2 ^ 31 }
    ensures of_type { IfOk result (λ m. (m.pool ≡ pool.now) × (m.kind ≡ message_type.0)) }
    ensures whole { (o : Start) → ReadFrom pool.now o reading → IfOk result (λ m. IsWhole pool.now o m.body) }
    ensures fault { (o : Start) → ReadFrom pool.now o reading → IfErr result (λ e. IfFault e (BadFrom pool.now o)) }
{
    let body = whole_body(alloc, pool, reading)?;
    Ok(from_well_formed(alloc, pool, message_type, body))
}
