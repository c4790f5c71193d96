//! JSON texts (RFC 8259).

ghost use Rattle.std.specs.Prelude.{◌≡◌, ◌≢◌, ◌⊎◌, ◌<◌, ℕ, List, length, take, IfOk, IfErr, OnOk, IsErrAnd, MatchResult};
ghost use Rattle.std.specs.Str.Lossy.{utf8_valid_len};
ghost use Rattle.pb_json_text.specs.Fault.{fault, out_of_memory};
ghost use Rattle.pb_json_text.specs.Json.{Placed};
ghost use Rattle.pb_json_text.specs.Texts.{max_depth, IsJson, HasFault};
ghost use Rattle.pb_json_text.specs.View.{value_view};
ghost use Rattle.pb_json_text.specs.Loops.Machine.{run, done, before_value, top};
ghost use Rattle.pb_json_text.specs.Loops.States.{IsStop};
ghost use Rattle.pb_json_text.specs.declared.fault.JsonCause.{JsonCause};

use crate::bytes::next_byte;
use crate::fault::{JsonCause, JsonFault};
use crate::reading::value;
use crate::value::JsonValue;
use std::alloc::Global;

/// How deep arrays and objects may nest.
pub const MAX_DEPTH: usize = 100;

/// The value of a text, apart from what UTF-8 asks.
fn read_text(alloc: Global, input: &str) -> Result<JsonValue, JsonFault>
    ensures ok { IfOk result (λ v. run (before_value max_depth top) 0 input.now ≡ done (value_view v).0 (value_view v).1) }
    ensures fault { IfErr result (λ e. IsStop e (run (before_value max_depth top) 0 input.now)) }
{
    let bytes = input.as_bytes();
    let (_, at) = next_byte(bytes, 0)?;
    let (form, end) = value(alloc, input, at, MAX_DEPTH)?;
    match next_byte(bytes, end) {
        Ok((_, more)) => Err(JsonFault::unexpected(more)),
        Err(_) => Ok(JsonValue { at, form }),
    }
}

/// The fault of a text that is followed by what is not UTF-8.
fn or_bad_utf8(fault: JsonFault, end: usize) -> JsonFault
    ensures cut { fault.cause ≡ JsonCause.UnexpectedEnd → (result.byte ≡ end) × (result.cause ≡ JsonCause.BadUtf8) }
    ensures other { fault.cause ≢ JsonCause.UnexpectedEnd → result ≡ fault }
{
    if fault.cause == JsonCause::UnexpectedEnd {
        JsonFault::bad_utf8(end)
    } else {
        fault
    }
}

/// The fault of bytes of which a text, or what is none, is followed by what is not UTF-8.
fn fault_of(read: &Result<JsonValue, JsonFault>, end: usize) -> JsonFault
    ensures ok { OnOk read.now ((result.byte ≡ end) × (result.cause ≡ JsonCause.BadUtf8)) }
    ensures err { IfErr read.now (λ e. (e.cause ≡ JsonCause.UnexpectedEnd → (result.byte ≡ end) × (result.cause ≡ JsonCause.BadUtf8))
        × (e.cause ≢ JsonCause.UnexpectedEnd → result ≡ e)) }
{
    match read {
        Ok(_) => JsonFault::bad_utf8(end),
        Err(fault) => or_bad_utf8(*fault, end),
    }
}

/// The fault of bytes of which the longest prefix in UTF-8 is given.
fn fault_in(alloc: Global, prefix: &str) -> JsonFault
    ensures { (b : List ℕ) → utf8_valid_len b < length b → prefix.now ≡ take (utf8_valid_len b) b
        → (result ≡ out_of_memory) ⊎ HasFault result.cause b result.byte }
{
    let end = prefix.len();
    let read = read_text(alloc, prefix);
    fault_of(&read, end)
}

/// Reads a JSON text as its value.
///
/// Numbers keep their characters, objects the order of their members and names that come twice. Values, elements and members have the byte where
/// they begin. The fault is the first byte with which no JSON text begins, or the end of the bytes. Arrays and objects nest 100 deep at most.
/// (RFC 8259)
pub fn read_value(alloc: Global, bytes: &[u8]) -> Result<JsonValue, JsonFault>
    ensures value { IfOk result (λ v. IsJson (value_view v) bytes.now) }
    ensures fault { IfErr result (λ e. (e ≡ out_of_memory) ⊎ HasFault e.cause bytes.now e.byte) }

    // Each value is answered and each fault is reported, unless memory runs out.
    ensures accepted { (v : Placed) → IsJson v bytes.now → MatchResult result (λ w. value_view w ≡ v) (λ e. e ≡ out_of_memory) }
    ensures refused { (n : ℕ) (c : JsonCause) → HasFault c bytes.now n → IsErrAnd result (λ e. (e ≡ out_of_memory) ⊎ (e ≡ fault n c)) }
{
    match simdutf8::compat::from_utf8(bytes) {
        Ok(input) => read_text(alloc, input),
        Err(error) => {
            let valid = error.valid_up_to();
            match simdutf8::compat::from_utf8(&bytes[..valid]) {
                Ok(prefix) => Err(fault_in(alloc, prefix)),
                Err(_) => Err(JsonFault::bad_utf8(valid)),
            }
        }
    }
}
