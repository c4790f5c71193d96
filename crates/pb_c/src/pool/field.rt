//! A field of a message type, by its name.

ghost use Rattle.std.specs.Prelude.{◌≡◌, ◌≢◌, ◌<◌, ◌≤◌, ◌↔◌, ◌⊎◌, None, Some, Ok, Err, length, option_map, IfOk, IfErr, MatchResult};
ghost use Rattle.pb_schema.specs.Tables.{field_named};
ghost use Rattle.pb_schema.specs.Types.{FieldView, Types, message_fields};
ghost use Rattle.pb_schema.specs.View.{field_view};
ghost use Rattle.pb_c.specs.Field.{field_report, key_number, kind_number, shape_number, type_number};
ghost use Rattle.pb_c_handles.specs.Held.{types_held};
ghost use Rattle.pb_c_answers.specs.Typed.{HasType, LacksType};

use pb_c_answers::{ABSENT, DONE, EMPTY, NO_TYPE, type_numbered};
use pb_c_handles::pool::{PoolHandle, put, take};
use pb_schema::{Field, Kind, Pool, Shape};
use std::alloc::Global;

/// What a field is, but for its name.
#[repr(C)]
#[derive(Clone, Copy, Debug, PartialEq, Eq)]
pub struct FieldReport {
    pub number: u32,
    /// What its values are: the number of a type in descriptor.proto, from 1 to 18.
    pub kind: u32,
    /// One value of implicit presence 0, of explicit presence 1, of a oneof 2; a list 3, a map 4.
    pub shape: u32,
    /// The number of the kind of a map's keys, else 0.
    pub key: u32,
    /// The number of the message type, or of the enum, that the kind names, else 0.
    pub type_of: usize,
}

fn kind_number(kind: Kind) -> u32
    ensures { result ≡ kind_number kind }
{
    match kind {
        Kind::Double => 1,
        Kind::Float => 2,
        Kind::Int64 => 3,
        Kind::Uint64 => 4,
        Kind::Int32 => 5,
        Kind::Fixed64 => 6,
        Kind::Fixed32 => 7,
        Kind::Bool => 8,
        Kind::Text => 9,
        Kind::Group(_) => 10,
        Kind::Message(_) => 11,
        Kind::Bytes => 12,
        Kind::Uint32 => 13,
        Kind::Enum(_) | Kind::ClosedEnum(_) => 14,
        Kind::Sfixed32 => 15,
        Kind::Sfixed64 => 16,
        Kind::Sint32 => 17,
        Kind::Sint64 => 18,
    }
}

fn type_number(kind: Kind) -> usize
    ensures { result ≡ type_number kind }
{
    match kind {
        Kind::Message(message) | Kind::Group(message) => message.0,
        Kind::Enum(entry) | Kind::ClosedEnum(entry) => entry.0,
        _ => 0,
    }
}

fn shape_number(shape: Shape) -> u32
    ensures { result ≡ shape_number shape }
{
    match shape {
        Shape::Implicit => 0,
        Shape::Explicit => 1,
        Shape::OneofMember(_) => 2,
        Shape::List { packed: _ } => 3,
        Shape::Map { key: _ } => 4,
    }
}

fn key_number(shape: Shape) -> u32
    ensures { result ≡ key_number shape }
{
    match shape {
        Shape::Map { key } => kind_number(key),
        _ => 0,
    }
}

pub(crate) fn report_field(field: &Field) -> FieldReport
    ensures { result ≡ field_report (field_view field.now) }
{
    FieldReport {
        number: field.number,
        kind: kind_number(field.kind),
        shape: shape_number(field.shape),
        key: key_number(field.shape),
        type_of: type_number(field.kind),
    }
}

/// What the field of a simple name is in the message type of a number, or what a call answers.
fn find_field(pool: &Pool, number: u32, name: &[u8]) -> Result<FieldReport, u32>
    ensures no_type { result ≡ Err NO_TYPE ↔ length pool.now.messages ≤ number }
    ensures found { number < length pool.now.messages
        → MatchResult result (λ r. option_map field_report
        (field_named name.now (message_fields pool.now number)) ≡ Some r)
        (λ a. (a ≡ ABSENT) × (field_named name.now (message_fields pool.now number) ≡ None)) }
{
    let Some(message_type) = type_numbered(pool, number) else {
        return Err(NO_TYPE);
    };
    // By the rules of a pool its names are ASCII, so what is not UTF-8 is none of them.
    let _messages = pool.messages();
    let Ok(name) = std::str::from_utf8(name) else {
        return Err(ABSENT);
    };
    match pool.field_by_name(message_type, name) {
        Some(field) => Ok(report_field(field)),
        None => Err(ABSENT),
    }
}

/// Reports what the field of a simple name is in the message type of this number.
///
/// Answers DONE; EMPTY where the handle holds nothing; NO_TYPE where its pool has no such type; or ABSENT where that has no such field. The
/// report is written at DONE alone.
#[unsafe(no_mangle)]
pub extern "C" fn mb_pool_field(
    alloc: Global,
    pool: &mut PoolHandle,
    message_type: u32,
    name: &[u8],
    field: &mut FieldReport,
) -> u32
    ensures found { result ≡ DONE → (ts : Types) × HasType (types_held pool.old) message_type ts
        × ((f : FieldView) × (field_named name.now (message_fields ts message_type) ≡ Some f)
        × (field.new ≡ field_report f)) }
    ensures absent { result ≡ ABSENT ↔ (ts : Types) × HasType (types_held pool.old) message_type ts
        × (field_named name.now (message_fields ts message_type) ≡ None) }
    ensures untold { result ≢ DONE → field.new ≡ field.old }
    ensures empty { result ≡ EMPTY ↔ (types_held pool.old ≡ None) }
    ensures no_type { result ≡ NO_TYPE ↔ LacksType (types_held pool.old) message_type }
    ensures answers { (result ≡ DONE) ⊎ (result ≡ EMPTY) ⊎ (result ≡ NO_TYPE) ⊎ (result ≡ ABSENT) }
    ensures same { pool.new.seal.pool ≡ pool.old.seal.pool }
{
    let Some(shared) = take(alloc, pool) else {
        return EMPTY;
    };
    let found = find_field(&shared.pool, message_type, name);
    put(pool, shared);
    match found {
        Ok(report) => {
            *field = report;
            DONE
        }
        Err(answer) => answer,
    }
}
