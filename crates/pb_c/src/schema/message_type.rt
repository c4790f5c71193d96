//! A message type of a pool by its number, its fields and its oneofs by their indexes.

ghost use Rattle.std.specs.Prelude.{◌≡◌, ◌≢◌, ◌<◌, ◌≤◌, ◌↔◌, ◌⊎◌, None, Some, length, option_map, slice_get, string_bytes};
ghost use Rattle.pb_schema.specs.Types.{Types};
ghost use Rattle.pb_schema.specs.View.{field_view, message_view};
ghost use Rattle.pb_c_handles.specs.Held.{types_held};
ghost use Rattle.pb_c.specs.PoolParts.{IsFieldAt, IsOneofAt, IsTypeAt, field_at, oneof_at, shape_detail, type_report};
ghost use Rattle.pb_c_answers.specs.Typed.{HasType, LacksType};

use crate::pool::field::{FieldReport, report_field};
use pb_c_answers::{ABSENT, DONE, EMPTY, NO_TYPE, type_numbered, write_out};
use pb_c_handles::pool::{PoolHandle, put, take};
use pb_schema::{Field, MessageType, Pool, Shape};
use std::alloc::Global;

/// What a message type is, but for its name.
#[repr(C)]
#[derive(Clone, Copy, Debug, PartialEq, Eq)]
pub struct TypeReport {
    /// The index of its file.
    pub file: usize,
    /// 1 where it is declared in a message type, else 0.
    pub nested: u32,
    /// The number of the message type that it is declared in, else 0.
    pub parent: usize,
    /// How many fields it has.
    pub fields: usize,
    /// How many oneofs it has.
    pub oneofs: usize,
}

fn report_type(message_type: &MessageType) -> TypeReport
    ensures { result ≡ type_report (message_view message_type.now) }
{
    let (nested, parent) = match message_type.parent {
        Some(parent) => (1, parent.0),
        None => (0, 0),
    };
    TypeReport {
        file: message_type.file,
        nested,
        parent,
        fields: message_type.fields.len(),
        oneofs: message_type.oneofs.len(),
    }
}

fn shape_detail(shape: Shape) -> u32
    ensures { result ≡ shape_detail shape }
{
    match shape {
        Shape::OneofMember(oneof) => oneof,
        Shape::List { packed } => u32::from(packed),
        _ => 0,
    }
}

/// The message type of a number.
fn message_at(pool: &Pool, number: u32) -> Option<&MessageType>
    ensures { option_map (λ t. message_view t.now) result ≡ slice_get pool.now.messages number }
{
    pool.messages().get(number as usize)
}

/// The field at an index of a message type.
fn field_of(message_type: &MessageType, index: usize) -> Option<&Field>
    ensures { option_map (λ f. field_view f.now) result
        ≡ slice_get (message_view message_type.now).fields index }
{
    message_type.fields.get(index)
}

/// The field at an index of the message type of a number.
fn field_at(pool: &Pool, number: u32, index: usize) -> Option<&Field>
    ensures { option_map (λ f. field_view f.now) result ≡ field_at pool.now number index }
{
    let message_type = message_at(pool, number)?;
    field_of(message_type, index)
}

/// The name of the oneof at an index of a message type.
fn oneof_of(message_type: &MessageType, index: usize) -> Option<&String>
    ensures { option_map (λ s. string_bytes s.now) result
        ≡ slice_get (message_view message_type.now).oneofs index }
{
    message_type.oneofs.get(index)
}

/// The name of the oneof at an index of the message type of a number.
fn oneof_at(pool: &Pool, number: u32, index: usize) -> Option<&String>
    ensures { option_map (λ s. string_bytes s.now) result ≡ oneof_at pool.now number index }
{
    let message_type = message_at(pool, number)?;
    oneof_of(message_type, index)
}

/// Reports the message type of a number, and writes its full name.
fn describe_type(
    pool: &Pool,
    number: u32,
    report: &mut TypeReport,
    name: &mut [u8],
    size: &mut usize,
) -> u32
    ensures described { result ≡ DONE
        → IsTypeAt pool.now number report.new name.old name.new size.new }
    ensures unwritten { result ≢ DONE → (report.new ≡ report.old) × (name.new ≡ name.old)
        × (size.new ≡ size.old) }
    ensures no_type { result ≡ NO_TYPE ↔ length pool.now.messages ≤ number }
    ensures answers { (result ≡ DONE) ⊎ (result ≡ NO_TYPE) }
{
    let Some(id) = type_numbered(pool, number) else {
        return NO_TYPE;
    };
    let Some(message_type) = message_at(pool, number) else {
        return NO_TYPE;
    };
    *report = report_type(message_type);
    write_out(pool.message_name(id), name, size);
    DONE
}

/// Reports the field at an index of the message type of a number, and writes its name.
fn describe_field(
    pool: &Pool,
    number: u32,
    index: usize,
    report: &mut FieldReport,
    detail: &mut u32,
    name: &mut [u8],
    size: &mut usize,
) -> u32
    ensures described { result ≡ DONE
        → IsFieldAt pool.now number index report.new detail.new name.old name.new size.new }
    ensures unwritten { result ≢ DONE → (report.new ≡ report.old) × (detail.new ≡ detail.old)
        × (name.new ≡ name.old) × (size.new ≡ size.old) }
    ensures no_type { result ≡ NO_TYPE ↔ length pool.now.messages ≤ number }
    ensures absent { result ≡ ABSENT ↔ (number < length pool.now.messages)
        × (field_at pool.now number index ≡ None) }
    ensures answers { (result ≡ DONE) ⊎ (result ≡ NO_TYPE) ⊎ (result ≡ ABSENT) }
{
    if type_numbered(pool, number).is_none() {
        return NO_TYPE;
    }
    let Some(field) = field_at(pool, number, index) else {
        return ABSENT;
    };
    *report = report_field(field);
    *detail = shape_detail(field.shape);
    write_out(field.name.as_bytes(), name, size);
    DONE
}

/// Writes the name of the oneof at an index of the message type of a number.
fn describe_oneof(pool: &Pool, number: u32, index: usize, name: &mut [u8], size: &mut usize) -> u32
    ensures described { result ≡ DONE → IsOneofAt pool.now number index name.old name.new size.new }
    ensures unwritten { result ≢ DONE → (name.new ≡ name.old) × (size.new ≡ size.old) }
    ensures no_type { result ≡ NO_TYPE ↔ length pool.now.messages ≤ number }
    ensures absent { result ≡ ABSENT ↔ (number < length pool.now.messages)
        × (oneof_at pool.now number index ≡ None) }
    ensures answers { (result ≡ DONE) ⊎ (result ≡ NO_TYPE) ⊎ (result ≡ ABSENT) }
{
    if type_numbered(pool, number).is_none() {
        return NO_TYPE;
    }
    let Some(oneof) = oneof_at(pool, number, index) else {
        return ABSENT;
    };
    write_out(oneof.as_bytes(), name, size);
    DONE
}

/// Reports the message type of a number, and writes its full name, as much of it as the buffer holds, and its whole length.
///
/// Answers DONE; EMPTY where the handle holds nothing; or NO_TYPE. All is written at DONE alone.
#[unsafe(no_mangle)]
pub extern "C" fn mb_pool_message(
    alloc: Global,
    pool: &mut PoolHandle,
    message_type: u32,
    report: &mut TypeReport,
    name: &mut [u8],
    size: &mut usize,
) -> u32
    ensures described { result ≡ DONE → (ts : Types) × (types_held pool.old ≡ Some ts)
        × IsTypeAt ts message_type report.new name.old name.new size.new }
    ensures unwritten { result ≢ DONE → (report.new ≡ report.old) × (name.new ≡ name.old)
        × (size.new ≡ size.old) }
    ensures empty { result ≡ EMPTY ↔ (types_held pool.old ≡ None) }
    ensures no_type { result ≡ NO_TYPE ↔ LacksType (types_held pool.old) message_type }
    ensures answers { (result ≡ DONE) ⊎ (result ≡ EMPTY) ⊎ (result ≡ NO_TYPE) }
    ensures same { pool.new.seal.pool ≡ pool.old.seal.pool }
{
    let Some(shared) = take(alloc, pool) else {
        return EMPTY;
    };
    let answer = describe_type(&shared.pool, message_type, report, name, size);
    put(pool, shared);
    answer
}

/// Reports the field at an index of the message type of a number, with what its shape says beside (of a member of a oneof the index of the oneof,
/// of a list 1 where it is packed, else 0), and writes its name, as much of it as the buffer holds, and its whole length.
///
/// Answers DONE; EMPTY where the handle holds nothing; NO_TYPE; or ABSENT where the type has fewer fields. All is written at DONE alone.
#[unsafe(no_mangle)]
pub extern "C" fn mb_pool_field_at(
    alloc: Global,
    pool: &mut PoolHandle,
    message_type: u32,
    index: usize,
    report: &mut FieldReport,
    detail: &mut u32,
    name: &mut [u8],
    size: &mut usize,
) -> u32
    ensures described { result ≡ DONE → (ts : Types) × (types_held pool.old ≡ Some ts)
        × IsFieldAt ts message_type index report.new detail.new name.old name.new size.new }
    ensures unwritten { result ≢ DONE → (report.new ≡ report.old) × (detail.new ≡ detail.old)
        × (name.new ≡ name.old) × (size.new ≡ size.old) }
    ensures empty { result ≡ EMPTY ↔ (types_held pool.old ≡ None) }
    ensures no_type { result ≡ NO_TYPE ↔ LacksType (types_held pool.old) message_type }
    ensures absent { result ≡ ABSENT ↔ (ts : Types) × HasType (types_held pool.old) message_type ts
        × (field_at ts message_type index ≡ None) }
    ensures answers { (result ≡ DONE) ⊎ (result ≡ EMPTY) ⊎ (result ≡ NO_TYPE) ⊎ (result ≡ ABSENT) }
    ensures same { pool.new.seal.pool ≡ pool.old.seal.pool }
{
    let Some(shared) = take(alloc, pool) else {
        return EMPTY;
    };
    let answer = describe_field(
        &shared.pool,
        message_type,
        index,
        report,
        detail,
        name,
        size,
    );
    put(pool, shared);
    answer
}

/// Writes the name of the oneof at an index of the message type of a number, as much of it as the buffer holds, and its whole length.
///
/// Answers DONE; EMPTY where the handle holds nothing; NO_TYPE; or ABSENT where the type has fewer oneofs. All is written at DONE alone.
#[unsafe(no_mangle)]
pub extern "C" fn mb_pool_oneof(
    alloc: Global,
    pool: &mut PoolHandle,
    message_type: u32,
    index: usize,
    name: &mut [u8],
    size: &mut usize,
) -> u32
    ensures described { result ≡ DONE → (ts : Types) × (types_held pool.old ≡ Some ts)
        × IsOneofAt ts message_type index name.old name.new size.new }
    ensures unwritten { result ≢ DONE → (name.new ≡ name.old) × (size.new ≡ size.old) }
    ensures empty { result ≡ EMPTY ↔ (types_held pool.old ≡ None) }
    ensures no_type { result ≡ NO_TYPE ↔ LacksType (types_held pool.old) message_type }
    ensures absent { result ≡ ABSENT ↔ (ts : Types) × HasType (types_held pool.old) message_type ts
        × (oneof_at ts message_type index ≡ None) }
    ensures answers { (result ≡ DONE) ⊎ (result ≡ EMPTY) ⊎ (result ≡ NO_TYPE) ⊎ (result ≡ ABSENT) }
    ensures same { pool.new.seal.pool ≡ pool.old.seal.pool }
{
    let Some(shared) = take(alloc, pool) else {
        return EMPTY;
    };
    let answer = describe_oneof(&shared.pool, message_type, index, name, size);
    put(pool, shared);
    answer
}
