//! A caller of `validate` and `decode`, proved from public clauses alone: they accept the same inputs, and report the same fault.

ghost use Rattle.std.specs.Prelude.{◌≡◌, ◌<◌, length, Ok, IfOk, IfErr};
ghost use Rattle.pb_decode.specs.Reader.{IfFault};
ghost use Rattle.pb_decode.specs.Push.{Tells};
ghost use Rattle.pb_decode.specs.declared.error.DecodeError.TheVariants.{Memory};

use super::sample::{Schema, sample};
use super::words::bytes_of;
use pb_decode::{DecodeError, decode, validate};
use pb_schema::{MessageId, Pool};
use pb_value::DynamicMessage;
use pb_wire::Limits;
use std::alloc::Global;
use std::test::Fail;

/// What `validate` answers, and what `decode` does.
///
/// Where `validate` accepts, `decode` makes a message, up to memory; where `decode` makes one, `validate` accepts; and the fault that one
/// of them reports is that of the other, up to memory.
fn validated_and_decoded<'p>(
    alloc: Global,
    pool: &'p Pool,
    message_type: MessageId,
    bytes: &[u8],
    limits: Limits,
) -> (
    Result<(), DecodeError>,
    Result<DynamicMessage<'p>, DecodeError>,
)
    requires { message_type.0 < length pool.now.messages }
    ensures accepted { IfOk result.0 (λ _. IfErr result.1 (λ e. e ≡ Memory)) }
    ensures decoded { IfOk result.1 (λ _. result.0 ≡ Ok tt) }
    ensures refused { IfErr result.0 (λ e. IfFault e (λ f. Tells result.1 f)) }
    ensures reported { IfErr result.1 (λ e. IfFault e (λ f. Tells result.0 f)) }
{
    let validated = validate(alloc, pool, message_type, bytes, limits);
    let decoded = decode(alloc, pool, message_type, bytes, limits);
    (validated, decoded)
}

/// Whether bytes are accepted by both, or by neither.
fn are_alike(schema: &Schema, bytes: &[u8], accepted: bool) -> bool {
    let (validated, decoded) = validated_and_decoded(
        schema.alloc,
        &schema.pool,
        schema.kind,
        bytes,
        Limits::FULL,
    );
    validated.is_ok() == accepted && decoded.is_ok() == accepted
}

#[test]
fn alike(rt: HostRuntime) -> Result<(), Fail> {
    let schema = sample(rt.alloc(), "T")?;
    let good = bytes_of(rt.alloc(), "08051a020807")?;
    let bad = bytes_of(rt.alloc(), "08051a0308")?;
    assert!(rt; are_alike(&schema, &good, true) && are_alike(&schema, &bad, false));
    Ok(())
}
