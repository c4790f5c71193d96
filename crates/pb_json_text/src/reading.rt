//! Values from bytes.

ghost use Rattle.std.specs.Prelude.{◌≡◌, ◌≤◌, ◌<◌, ◌⊎◌, length, slice_index, IfOk, IfErr, List, ℕ};
ghost use Rattle.pb_json_text.specs.Loops.Values.{IsRead, IsNoValue, AreRead, AreNoElements, AreMembersRead, AreNoMembers, IsMemberRead, IsNoMember};

use crate::bytes::{next_byte, number_end, word_end};
use crate::fault::JsonFault;
use crate::strings::string;
use crate::value::{JsonForm, JsonMember, JsonValue};
use std::alloc::Global;

/// The string that begins here, and where it ends.
fn string_value(alloc: Global, input: &str, at: usize) -> Result<(JsonForm, usize), JsonFault>
    requires within { at < length input.now }
    requires quote { slice_index input.now at ≡ 34 }
    ensures ok { IfOk result (λ r. (l : ℕ) → IsRead l at input.now r.0 r.1) }
    ensures fault { IfErr result (λ e. (l : ℕ) → IsNoValue l at input.now e) }
{
    let (text, end) = string(alloc, input, at + 1)?;
    Ok((JsonForm::String(text), end))
}

/// The number that begins here, and where it ends.
fn number_value(alloc: Global, input: &str, at: usize) -> Result<(JsonForm, usize), JsonFault>
    requires within { at < length input.now }
    requires digit { (slice_index input.now at ≡ 45) ⊎ ((48 ≤ slice_index input.now at) × (slice_index input.now at ≤ 57)) }
    ensures ok { IfOk result (λ r. (l : ℕ) → IsRead l at input.now r.0 r.1) }
    ensures fault { IfErr result (λ e. (l : ℕ) → IsNoValue l at input.now e) }
{
    let bytes = input.as_bytes();
    let end = number_end(bytes, at)?;
    let mut digits = Vec::new(alloc);
    digits.extend_from_slice(&bytes[at..end])?;
    Ok((JsonForm::Number(digits), end))
}

fn null_value(input: &str, at: usize) -> Result<(JsonForm, usize), JsonFault>
    requires within { at < length input.now }
    requires letter { slice_index input.now at ≡ 110 }
    ensures ok { IfOk result (λ r. (l : ℕ) → IsRead l at input.now r.0 r.1) }
    ensures fault { IfErr result (λ e. (l : ℕ) → IsNoValue l at input.now e) }
{
    let end = word_end(input.as_bytes(), at + 1, b"ull")?;
    Ok((JsonForm::Null, end))
}

fn true_value(input: &str, at: usize) -> Result<(JsonForm, usize), JsonFault>
    requires within { at < length input.now }
    requires letter { slice_index input.now at ≡ 116 }
    ensures ok { IfOk result (λ r. (l : ℕ) → IsRead l at input.now r.0 r.1) }
    ensures fault { IfErr result (λ e. (l : ℕ) → IsNoValue l at input.now e) }
{
    let end = word_end(input.as_bytes(), at + 1, b"rue")?;
    Ok((JsonForm::Bool(true), end))
}

fn false_value(input: &str, at: usize) -> Result<(JsonForm, usize), JsonFault>
    requires within { at < length input.now }
    requires letter { slice_index input.now at ≡ 102 }
    ensures ok { IfOk result (λ r. (l : ℕ) → IsRead l at input.now r.0 r.1) }
    ensures fault { IfErr result (λ e. (l : ℕ) → IsNoValue l at input.now e) }
{
    let end = word_end(input.as_bytes(), at + 1, b"alse")?;
    Ok((JsonForm::Bool(false), end))
}

/// The value that begins here, with arrays and objects nested no deeper than the levels, and where it ends.
#[cycle(read)]
pub(crate) fn value(
    alloc: Global,
    input: &str,
    at: usize,
    levels: usize,
) -> Result<(JsonForm, usize), JsonFault>
    requires { at < length input.now }
    ensures ok { IfOk result (λ r. IsRead levels at input.now r.0 r.1) }
    ensures fault { IfErr result (λ e. IsNoValue levels at input.now e) }
{
    let byte = input.as_bytes()[at];
    if byte == b'"' {
        return string_value(alloc, input, at);
    }
    if byte == b'-' || (b'0' <= byte && byte <= b'9') {
        return number_value(alloc, input, at);
    }
    if byte == b'[' {
        return array(alloc, input, at, levels);
    }
    if byte == b'{' {
        return object(alloc, input, at, levels);
    }
    if byte == b'n' {
        return null_value(input, at);
    }
    if byte == b't' {
        return true_value(input, at);
    }
    if byte == b'f' {
        return false_value(input, at);
    }
    Err(JsonFault::unexpected(at))
}

/// The array that begins here, and where it ends.
#[cycle(read)]
fn array(
    alloc: Global,
    input: &str,
    at: usize,
    levels: usize,
) -> Result<(JsonForm, usize), JsonFault>
    requires within { at < length input.now }
    requires bracket { slice_index input.now at ≡ 91 }
    ensures ok { IfOk result (λ r. IsRead levels at input.now r.0 r.1) }
    ensures fault { IfErr result (λ e. IsNoValue levels at input.now e) }
{
    if levels == 0 {
        return Err(JsonFault::too_deep(at));
    }
    let (items, end) = elements(alloc, input, at + 1, levels - 1)?;
    Ok((JsonForm::Array(items), end))
}

/// The object that begins here, and where it ends.
#[cycle(read)]
fn object(
    alloc: Global,
    input: &str,
    at: usize,
    levels: usize,
) -> Result<(JsonForm, usize), JsonFault>
    requires within { at < length input.now }
    requires brace { slice_index input.now at ≡ 123 }
    ensures ok { IfOk result (λ r. IsRead levels at input.now r.0 r.1) }
    ensures fault { IfErr result (λ e. IsNoValue levels at input.now e) }
{
    if levels == 0 {
        return Err(JsonFault::too_deep(at));
    }
    let (all, end) = members(alloc, input, at + 1, levels - 1)?;
    Ok((JsonForm::Object(all), end))
}

/// The elements of an array from after its opening bracket on, and where it ends.
#[cycle(read)]
fn elements(
    alloc: Global,
    input: &str,
    from: usize,
    levels: usize,
) -> Result<(Vec<JsonValue>, usize), JsonFault>
    requires { from ≤ length input.now }
    ensures ok { IfOk result (λ r. AreRead levels from input.now r.0.items r.1) }
    ensures fault { IfErr result (λ e. AreNoElements levels from input.now e) }
{
    let bytes = input.as_bytes();
    let mut items = Vec::new(alloc);
    let (first, mut at) = next_byte(bytes, from)?;
    if first == b']' {
        return Ok((items, at + 1));
    }
    'items: loop {
        let (form, end) = value(alloc, input, at, levels)?;
        items.push(JsonValue { at, form })?;
        let (byte, stop) = next_byte(bytes, end)?;
        if byte == b']' {
            return Ok((items, stop + 1));
        }
        if byte != b',' {
            return Err(JsonFault::unexpected(stop));
        }
        let (_, next) = next_byte(bytes, stop + 1)?;
        at = next;
    }
}

/// The members of an object from after its opening brace on, and where it ends.
#[cycle(read)]
fn members(
    alloc: Global,
    input: &str,
    from: usize,
    levels: usize,
) -> Result<(Vec<JsonMember>, usize), JsonFault>
    requires { from ≤ length input.now }
    ensures ok { IfOk result (λ r. AreMembersRead levels from input.now r.0.items r.1) }
    ensures fault { IfErr result (λ e. AreNoMembers levels from input.now e) }
{
    let bytes = input.as_bytes();
    let mut items = Vec::new(alloc);
    let (first, mut at) = next_byte(bytes, from)?;
    if first == b'}' {
        return Ok((items, at + 1));
    }
    'items: loop {
        let (item, end) = member(alloc, input, at, levels)?;
        items.push(item)?;
        let (byte, stop) = next_byte(bytes, end)?;
        if byte == b'}' {
            return Ok((items, stop + 1));
        }
        if byte != b',' {
            return Err(JsonFault::unexpected(stop));
        }
        let (_, next) = next_byte(bytes, stop + 1)?;
        at = next;
    }
}

/// The member whose name begins here, and where it ends.
#[cycle(read)]
fn member(
    alloc: Global,
    input: &str,
    at: usize,
    levels: usize,
) -> Result<(JsonMember, usize), JsonFault>
    requires { at < length input.now }
    ensures ok { IfOk result (λ r. IsMemberRead levels at input.now r.0 r.1) }
    ensures fault { IfErr result (λ e. IsNoMember levels at input.now e) }
{
    let bytes = input.as_bytes();
    if bytes[at] != b'"' {
        return Err(JsonFault::unexpected(at));
    }
    let (name, after) = string(alloc, input, at + 1)?;
    let (byte, colon) = next_byte(bytes, after)?;
    if byte != b':' {
        return Err(JsonFault::unexpected(colon));
    }
    let (_, value_at) = next_byte(bytes, colon + 1)?;
    let (form, end) = value(alloc, input, value_at, levels)?;
    let value = JsonValue { at: value_at, form };
    Ok((JsonMember { at, name, value }, end))
}
