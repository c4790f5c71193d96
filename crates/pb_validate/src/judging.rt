//! A message of a type, or one record of it, judged where it lies: nothing is built.

ghost use Rattle.std.specs.Prelude.{◌≡◌, ◌≢◌, ◌≤◌, ◌<◌, ◌^◌, Ok, None, length, IfOk, IfErr, IfSome, IsErrAnd};
ghost use Rattle.pb_wire.specs.Exact.{IsSomeText};
ghost use Rattle.pb_wire.specs.Fault.{Fault, Place, HasTag};
ghost use Rattle.pb_wire.specs.Grammar.{HasFault};
ghost use Rattle.pb_wire.specs.Reading.{IfRawFault};
ghost use Rattle.pb_wire.specs.Record.{Payload};
ghost use Rattle.pb_schema.specs.Rules.{IsPool};
ghost use Rattle.pb_schema.specs.Context.{a_message, schema_of};
ghost use Rattle.pb_wire.specs.Scan.{here};
ghost use Rattle.pb_validate.specs.Judging.{ReadsValue, IsRefusal};

use crate::context::Context;
use crate::refusal::{Refusal, below, of_longer};
use crate::scope::Scope;
use crate::whole::{are_whole, record_end as whole_record_end};
use pb_schema::{MessageId, Pool};
use pb_wire::{Cause, Limits, RawError, RecordTag, refused};
use std::alloc::Global;

/// Judges bytes as a message of a type: whether `pb_decode::decode` makes a message of them, or which fault they have.
///
/// Fails with the one fault of the bytes, or where memory for its path is refused. Bytes past the limits are refused. Whole messages are
/// read once, by a pass that finds no faults.
pub fn judge(
    alloc: Global,
    pool: &Pool,
    message_type: MessageId,
    bytes: &[u8],
    limits: Limits,
) -> Result<(), RawError>
    requires { message_type.0 < length pool.now.messages }
    ensures text { IfOk result (λ _. IsSomeText (schema_of pool.now) (a_message message_type.0) limits bytes.now) }
    ensures fault { IfErr result (λ e. IfRawFault e (HasFault (schema_of pool.now) (a_message message_type.0) limits bytes.now)) }

    // Each message is accepted, also where no memory is left, and each fault is reported, unless memory for its path is refused.
    ensures accepted { IsSomeText (schema_of pool.now) (a_message message_type.0) limits bytes.now → result ≡ Ok tt }
    ensures refused { (f : Fault) → HasFault (schema_of pool.now) (a_message message_type.0) limits bytes.now f
        → IsErrAnd result (λ e. IfRawFault e (λ g. g ≡ f)) }
{
    let _rules = pool.messages();
    if bytes.len() <= limits.max_bytes() as usize {
        let context = Context::Message(message_type);
        if are_whole(pool, context, limits.max_depth(), bytes) {
            return Ok(());
        }
    }
    find_fault(alloc, pool, message_type, bytes, limits)
}

/// As `judge`, for bytes that something refused: a message takes longer, and what is refused is read once less.
pub fn find_fault(
    alloc: Global,
    pool: &Pool,
    message_type: MessageId,
    bytes: &[u8],
    limits: Limits,
) -> Result<(), RawError>
    requires { message_type.0 < length pool.now.messages }
    ensures text { IfOk result (λ _. IsSomeText (schema_of pool.now) (a_message message_type.0) limits bytes.now) }
    ensures fault { IfErr result (λ e. IsRefusal e (HasFault (schema_of pool.now) (a_message message_type.0) limits bytes.now)) }
{
    let _rules = pool.messages();
    let max_bytes = limits.max_bytes() as usize;
    let top = Scope {
        pool,
        context: Context::Message(message_type),
        group: None,
        levels: limits.max_depth(),
        to: None,
    };
    let mut steps = Vec::new(alloc);
    if bytes.len() <= max_bytes {
        return match top.records_end(bytes, 0, &mut steps) {
            Ok(_) => Ok(()),
            Err(Refusal::Memory) => Err(RawError::Memory),
            Err(Refusal::Fault(fault)) => Err(below(fault, steps)),
        };
    }
    match top.records_end(&bytes[..max_bytes], 0, &mut steps) {
        Ok(_) => Err(below(refused(max_bytes, Cause::InputTooLarge), steps)),
        Err(Refusal::Memory) => Err(RawError::Memory),
        Err(Refusal::Fault(fault)) => Err(of_longer(max_bytes, fault, steps)),
    }
}

/// The index after the record of a tag in a message of a type, with these levels left. None where the record has a fault.
///
/// A whole record is read once, by the pass that finds no faults. Memory is taken only where the record has a fault.
#[inline(always)]
pub fn record_end(
    alloc: Global,
    pool: &Pool,
    message_type: MessageId,
    levels: u8,
    bytes: &[u8],
    tag: RecordTag,
) -> Option<usize>
    requires rules { IsPool pool.now }
    requires of_pool { message_type.0 < length pool.now.messages }
    requires levels { levels ≤ 100 }
    requires small { length bytes.now < 2 ^ 31 }
    requires end_in_bounds { tag.end ≤ length bytes.now }
    requires is_tag { HasTag (here bytes.now tag.at None) tag.number tag.wire_type (here bytes.now tag.end None) }
    requires no_end { tag.wire_type ≢ 4 }
    ensures within { IfSome result (λ end. (tag.end ≤ end) × (end ≤ length bytes.now)) }
    ensures some { IfSome result (λ end. (payload : Payload) × ReadsValue (schema_of pool.now) (a_message message_type.0) levels
        tag.number tag.wire_type (here bytes.now tag.end None) payload (here bytes.now end None)) }
    ensures none { result ≡ None → (payload : Payload) → (q : Place) → ReadsValue (schema_of pool.now) (a_message message_type.0) levels
        tag.number tag.wire_type (here bytes.now tag.end None) payload q → ⊥ }
{
    let context = Context::Message(message_type);
    if let Some(end) = whole_record_end(pool, context, levels, bytes, tag) {
        return Some(end);
    }
    let scope = Scope {
        pool,
        context,
        group: None,
        levels,
        to: None,
    };
    scope.exact_end(alloc, bytes, tag)
}
