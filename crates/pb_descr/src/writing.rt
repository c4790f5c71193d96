//! Descriptor sets, written.

ghost use Rattle.std.specs.Prelude.{◌≡◌, ◌≤◌, [], map, IfOk, IfErr, OnOk};
ghost use Rattle.pb_wire.specs.Limits.{full};
ghost use Rattle.pb_value.specs.Data.{message_depth};
ghost use Rattle.pb_value.specs.WellFormed.{IsWellFormed};
ghost use Rattle.pb_descr_message.specs.Pool.{the_set, descriptor_types};
ghost use Rattle.pb_declarations.specs.View.{file_view};
ghost use Rattle.pb_descr_message.specs.Causes.{set_causes};
ghost use Rattle.pb_descr_message.specs.Writing.{set_body};
ghost use Rattle.pb_descr_message.specs.Sets.{CutAt, IsSetOf, IsUnwritten, IsWritable, set_bytes};
ghost use Rattle.pb_descr_message.specs.declared.error.WriteSetError.TheVariants.{TooDeep, TooLarge, Memory};

use pb_declarations::FileDecl;
use pb_descr_message::{SET, WriteSetError, descriptor_pool, set_body};
use pb_encode::{EncodeError, encode};
use pb_schema::Pool;
use pb_value::{DynamicMessage, ValueError};
use std::alloc::Global;

/// The message of a set of files.
fn set_message<'p>(
    alloc: Global,
    pool: &'p Pool,
    files: &[FileDecl],
) -> Result<DynamicMessage<'p>, WriteSetError>
    requires { pool.now ≡ descriptor_types }
    ensures made { IfOk result
        (λ m. m ≡ record {
          pool = descriptor_types;
          kind = the_set;
          body = set_body (map file_view files.now);
        }) }
    ensures well_formed { OnOk result
        (IsWellFormed descriptor_types the_set (set_body (map file_view files.now))) }
    ensures refused { IfErr result
        (CutAt 100 (message_depth (set_body (map file_view files.now)))) }
{
    let body = set_body(alloc, files)?;
    match DynamicMessage::from_body(alloc, pool, SET, body) {
        Ok(message) => Ok(message),
        Err(ValueError::TooDeep) => Err(WriteSetError::TooDeep),
        // What declarations are written as fits the pool, so that nothing but memory is left to be wrong.
        Err(_) => Err(WriteSetError::Memory),
    }
}

/// The descriptor set of some files, in canonical form: fields by rising number, each list an element a record, all varints shortest.
///
/// Written are every name, number, range bound, method type and element of a list, a package that is not empty, the syntax of a file of
/// proto3, a label for each field, a type number, a type name and a oneof's index where they are given, the option `packed` where it is given, and
/// `map_entry`, `allow_alias`, `proto3_optional` and the streaming marks where they are true. Nothing is judged: what was written is read
/// back where it shows no cause. Refused where the set would nest more than 100 levels deep, where its bytes would pass 2^31 - 1, and
/// when memory runs out.
pub fn write_set(alloc: Global, files: &[FileDecl]) -> Result<Vec<u8>, WriteSetError>
    ensures canonical { IfOk result (λ b. b.items ≡ set_bytes (map file_view files.now)) }
    ensures fits { OnOk result ((message_depth (set_body (map file_view files.now)) ≤ 100)
        × IsWritable (map file_view files.now)) }
    ensures refused { IfErr result (IsUnwritten (map file_view files.now)) }
    ensures read_back { set_causes (set_body (map file_view files.now)) ≡ []
        → IfOk result (λ b. IsSetOf full b.items (map file_view files.now)) }
{
    let Ok(pool) = descriptor_pool(alloc) else {
        return Err(WriteSetError::Memory);
    };
    let message = set_message(alloc, &pool, files)?;
    match encode(&message) {
        Ok(bytes) => Ok(bytes),
        Err(EncodeError::TooLarge) => Err(WriteSetError::TooLarge),
        // No device takes part.
        Err(_) => Err(WriteSetError::Memory),
    }
}
