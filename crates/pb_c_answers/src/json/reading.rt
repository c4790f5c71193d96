//! A message of a JSON text, by the number of its type.

ghost use Rattle.std.specs.Prelude.{◌≡◌, ◌≢◌, ◌<◌, ◌≤◌, ◌^◌, ◌↔◌, ◌⊎◌, length, Err, IfOk, IfErr, IsErrAnd, MatchResult};
ghost use Rattle.pb_value.specs.Canon.{canon_bytes};
ghost use Rattle.pb_value.specs.Data.{Message};
ghost use Rattle.pb_json_read.specs.Answers.{IsReadBy, IsRefusedBy};
ghost use Rattle.pb_json_read.specs.Faults.{out_of_memory};
ghost use Rattle.pb_json_read.specs.declared.error.JsonReadError.{JsonReadError as ReadError};
ghost use Rattle.pb_c_answers.specs.Json.Numbers.{read_number};
ghost use Rattle.pb_c_answers.specs.Json.Reading.{ReportsRead, rules_of};

use crate::reporting::{MEMORY, NO_TYPE, TOO_LARGE};
use crate::typed::{canonical_of, type_numbered};
use pb_json::JsonNames;
use pb_json_read::{JsonReadCause, JsonReadError, JsonRules, read_json_by};
use pb_schema::Pool;
use pb_value::DynamicMessage;
use std::alloc::Global;

/// Why a JSON text is not read as a message.
const JSON_UNEXPECTED_BYTE: u32 = 101;

const JSON_UNEXPECTED_END: u32 = 102;

const JSON_BAD_UTF8: u32 = 103;

const JSON_TOO_DEEP: u32 = 104;

const JSON_UNKNOWN_NAME: u32 = 105;

const JSON_REPEATED_NAME: u32 = 106;

const JSON_SECOND_MEMBER: u32 = 107;

const JSON_BAD_KEY: u32 = 108;

const JSON_BAD_VALUE: u32 = 109;

/// How a text is read.
pub fn rules_of(lenient: bool) -> JsonRules
    ensures { result ≡ rules_of lenient }
{
    if lenient {
        JsonRules::Lenient
    } else {
        JsonRules::Strict
    }
}

/// The number of a cause. No call answers that of the last one: MEMORY is answered in its place.
fn number_of(cause: JsonReadCause) -> u32
    ensures { result ≡ read_number cause }
{
    match cause {
        JsonReadCause::UnexpectedByte => JSON_UNEXPECTED_BYTE,
        JsonReadCause::UnexpectedEnd => JSON_UNEXPECTED_END,
        JsonReadCause::BadUtf8 => JSON_BAD_UTF8,
        JsonReadCause::TooDeep => JSON_TOO_DEEP,
        JsonReadCause::UnknownName => JSON_UNKNOWN_NAME,
        JsonReadCause::RepeatedName => JSON_REPEATED_NAME,
        JsonReadCause::SecondMember => JSON_SECOND_MEMBER,
        JsonReadCause::BadKey => JSON_BAD_KEY,
        JsonReadCause::BadValue => JSON_BAD_VALUE,
        JsonReadCause::OutOfMemory => 110,
    }
}

/// Reports the byte of a fault and answers its cause; or that memory ran out.
fn report(error: JsonReadError, byte: &mut usize) -> u32
    ensures memory { error ≡ out_of_memory → result ≡ MEMORY }
    ensures unreported { result ≡ MEMORY → byte.new ≡ byte.old }
    ensures reported { ReportsRead error result byte.new ⊎ (result ≡ MEMORY) }
    ensures answers { (result ≡ MEMORY) ⊎ (101 ≤ result) }
{
    if error.cause == JsonReadCause::OutOfMemory {
        return MEMORY;
    }
    *byte = error.byte;
    number_of(error.cause)
}

/// The message of a JSON text, by its type's number and by the names that fields are given. Where there is none, the error is what a call answers.
pub fn read_text<'p>(
    alloc: Global,
    pool: &'p Pool,
    number: u32,
    json: &[u8],
    rules: JsonRules,
    names: &JsonNames,
    byte: &mut usize,
) -> Result<DynamicMessage<'p>, u32>
    ensures of_type { IfOk result (λ m. (m.pool ≡ pool.now) × (m.kind ≡ number)) }
    ensures read { IfOk result (λ m. IsReadBy pool.now rules names.now number json.now m.body) }
    ensures fault { IfErr result (λ a. a ≢ NO_TYPE → a ≢ MEMORY
        → (e : ReadError) × IsRefusedBy pool.now rules names.now number json.now e
        × ReportsRead e a byte.new) }
    ensures done { IfOk result (λ m. byte.new ≡ byte.old) }
    ensures unreported { IfErr result (λ a. (a ≡ NO_TYPE) ⊎ (a ≡ MEMORY) → byte.new ≡ byte.old) }
    ensures no_type { result ≡ Err NO_TYPE ↔ length pool.now.messages ≤ number }
    ensures answers { IfErr result (λ a. (a ≡ NO_TYPE) ⊎ (a ≡ MEMORY) ⊎ (101 ≤ a)) }
    ensures accepted { number < length pool.now.messages → (v : Message)
        → IsReadBy pool.now rules names.now number json.now v
        → MatchResult result (λ m. m.body ≡ v) (λ a. a ≡ MEMORY) }
    ensures refused { number < length pool.now.messages → (e : ReadError)
        → IsRefusedBy pool.now rules names.now number json.now e
        → IsErrAnd result (λ a. ReportsRead e a byte.new ⊎ (a ≡ MEMORY)) }
{
    let Some(message_type) = type_numbered(pool, number) else {
        return Err(NO_TYPE);
    };
    match read_json_by(alloc, pool, message_type, json, rules, names) {
        Ok(message) => Ok(message),
        Err(error) => Err(report(error, byte)),
    }
}

/// The canonical bytes of the message that `read_text` reads. Where there are none, the error is what a call answers.
pub fn canonical_text(
    alloc: Global,
    pool: &Pool,
    number: u32,
    json: &[u8],
    rules: JsonRules,
    names: &JsonNames,
    byte: &mut usize,
) -> Result<Vec<u8>, u32>
    ensures read { IfOk result (λ b. (v : Message)
        × IsReadBy pool.now rules names.now number json.now v
        × (b.items ≡ canon_bytes pool.now number v)
        × (length (canon_bytes pool.now number v) < 2 ^ 31)) }
    ensures too_large { result ≡ Err TOO_LARGE
        → (v : Message) × IsReadBy pool.now rules names.now number json.now v
        × (2 ^ 31 ≤ length (canon_bytes pool.now number v)) }
    ensures fault { IfErr result (λ a. a ≢ NO_TYPE → a ≢ TOO_LARGE → a ≢ MEMORY
        → (e : ReadError) × IsRefusedBy pool.now rules names.now number json.now e
        × ReportsRead e a byte.new) }
    ensures done { IfOk result (λ b. byte.new ≡ byte.old) }
    ensures unreported { IfErr result (λ a. (a ≡ NO_TYPE) ⊎ (a ≡ TOO_LARGE) ⊎ (a ≡ MEMORY)
        → byte.new ≡ byte.old) }
    ensures no_type { result ≡ Err NO_TYPE ↔ length pool.now.messages ≤ number }
    ensures answers { IfErr result (λ a. (a ≡ NO_TYPE) ⊎ (a ≡ TOO_LARGE) ⊎ (a ≡ MEMORY)
        ⊎ (101 ≤ a)) }
    ensures accepted { number < length pool.now.messages → (v : Message)
        → IsReadBy pool.now rules names.now number json.now v
        → length (canon_bytes pool.now number v) < 2 ^ 31
        → MatchResult result (λ b. b.items ≡ canon_bytes pool.now number v) (λ a. a ≡ MEMORY) }
    ensures oversized { number < length pool.now.messages → (v : Message)
        → IsReadBy pool.now rules names.now number json.now v
        → 2 ^ 31 ≤ length (canon_bytes pool.now number v)
        → IsErrAnd result (λ a. (a ≡ TOO_LARGE) ⊎ (a ≡ MEMORY)) }
    ensures refused { number < length pool.now.messages → (e : ReadError)
        → IsRefusedBy pool.now rules names.now number json.now e
        → IsErrAnd result (λ a. ReportsRead e a byte.new ⊎ (a ≡ MEMORY)) }
{
    match read_text(alloc, pool, number, json, rules, names, byte) {
        Ok(message) => match canonical_of(&message) {
            Ok(bytes) => Ok(bytes),
            Err(answer) => Err(answer),
        },
        Err(answer) => Err(answer),
    }
}
