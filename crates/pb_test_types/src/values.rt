//! Values and keys, read from words.

ghost use Rattle.std.specs.Prelude.{◌≡◌, Some, None, option_map, IfOk, IfErr};
ghost use Rattle.pb_value.specs.View.{body_view, content_view, key_view, value_view};
ghost use Rattle.pb_test_types.specs.Words.{scalar_by, scalar_word, with_field, scalar_onto, scalars_onto, flat_word};
ghost use Rattle.pb_test_types.specs.Words.{nested, before_dot, behind_dot, nest_word, entry_message, value_by, value_word, key_in, key_word};
ghost use Rattle.pb_test_types.specs.declared.error.WordError.TheVariants.{Memory, NoMeaning};

use crate::error::WordError;
use crate::texts::{bytes_of, halves, head_of, i32_of, i64_of, letter_of, u32_of, u64_of};
use pb_value::bodies::{empty_body, put_field};
use pb_value::{Body, Content, MapKey, Value};
use std::alloc::Global;
use std::collections::BTreeMap;

/// A scalar by a letter and what follows it: `i`, `I`, `u`, `U`, `b`, `f`, `F` and `e` a number (of a float its bits), `t` a text,
/// `x` bytes in hexadecimal, `y` bytes that are the text.
fn scalar_by(alloc: Global, form: u8, rest: &str) -> Result<Value, WordError>
    ensures value { IfOk result (λ v. scalar_by form rest.now ≡ Some (value_view v)) }
    ensures refused { IfErr result (λ e. e ≡ NoMeaning → scalar_by form rest.now ≡ None) }
{
    match form {
        b'i' => Ok(Value::I32(i32_of(rest)?)),
        b'I' => Ok(Value::I64(i64_of(rest)?)),
        b'u' => Ok(Value::U32(u32_of(rest)?)),
        b'U' => Ok(Value::U64(u64_of(rest)?)),
        b'b' => Ok(Value::Bool(rest == "1")),
        b'f' => Ok(Value::F32(u32_of(rest)?)),
        b'F' => Ok(Value::F64(u64_of(rest)?)),
        b'e' => Ok(Value::Enum(i32_of(rest)?)),
        b't' => Ok(Value::Text(String::from_str(alloc, rest)?)),
        b'x' => Ok(Value::Bytes(bytes_of(alloc, rest)?)),
        b'y' => Ok(Value::Bytes(String::from_str(alloc, rest)?.into_bytes())),
        _ => Err(WordError::NoMeaning),
    }
}

fn scalar_of(alloc: Global, word: &str) -> Result<Value, WordError>
    ensures value { IfOk result (λ v. scalar_word word.now ≡ Some (value_view v)) }
    ensures refused { IfErr result (λ e. e ≡ NoMeaning → scalar_word word.now ≡ None) }
{
    let (form, rest) = letter_of(word)?;
    scalar_by(alloc, form, rest)
}

/// A body with a content at a number.
pub(crate) fn with_field(body: Body, number: u32, content: Content) -> Result<Body, WordError>
    ensures value { IfOk result (λ b. body_view b
        ≡ with_field number (content_view content) (body_view body)) }
    ensures memory { IfErr result (λ e. e ≡ Memory) }
{
    let mut body = body;
    match put_field(&mut body, number, content) {
        Ok(()) => Ok(body),
        Err(_) => Err(WordError::Memory),
    }
}

/// A body with one scalar more, as `1=i5`; an empty word adds none.
fn with_scalar(alloc: Global, body: Body, word: &str) -> Result<Body, WordError>
    ensures value { IfOk result (λ b. scalar_onto (body_view body) word.now ≡ Some (body_view b)) }
    ensures refused { IfErr result (λ e. e ≡ NoMeaning
        → scalar_onto (body_view body) word.now ≡ None) }
{
    if word.is_empty() {
        return Ok(body);
    }
    let (number, word) = halves(word, '=')?;
    let number = u32_of(number)?;
    with_field(body, number, Content::One(scalar_of(alloc, word)?))
}

fn with_scalars(alloc: Global, body: Body, words: &str) -> Result<Body, WordError>
    ensures value { IfOk result (λ b. scalars_onto (body_view body) words.now
        ≡ Some (body_view b)) }
    ensures refused { IfErr result (λ e. e ≡ NoMeaning
        → scalars_onto (body_view body) words.now ≡ None) }
{
    let (word, more) = head_of(words, ';');
    let body = with_scalar(alloc, body, word)?;
    match more {
        None => Ok(body),
        Some(more) => with_scalars(alloc, body, more),
    }
}

/// A message of scalars, as `1=i5;11=i-2`.
fn flat_of(alloc: Global, words: &str) -> Result<Body, WordError>
    ensures value { IfOk result (λ b. flat_word words.now ≡ Some (body_view b)) }
    ensures refused { IfErr result (λ e. e ≡ NoMeaning → flat_word words.now ≡ None) }
{
    with_scalars(alloc, empty_body(alloc), words)
}

/// A body inside `levels` others, each the field 3 of the one around it.
fn nest(alloc: Global, inside: Body, levels: u32) -> Result<Body, WordError>
    ensures value { IfOk result (λ b. body_view b ≡ nested levels (body_view inside)) }
    ensures memory { IfErr result (λ e. e ≡ Memory) }
{
    let mut body = inside;
    for _ in 0..levels {
        body = with_field(empty_body(alloc), 3, Content::One(Value::Message(body)))?;
    }
    Ok(body)
}

/// Messages inside each other, the innermost of scalars, as `2.1=i5`, or empty.
fn nest_of(alloc: Global, words: &str) -> Result<Body, WordError>
    ensures value { IfOk result (λ b. nest_word words.now ≡ Some (body_view b)) }
    ensures refused { IfErr result (λ e. e ≡ NoMeaning → nest_word words.now ≡ None) }
{
    let (levels, inside) = around_dot(words);
    let levels = u32_of(levels)?;
    nest(alloc, flat_of(alloc, inside)?, levels)
}

/// The part before a dot, or all, and the part after it, or nothing.
fn around_dot(words: &str) -> (&str, &str)
    ensures before { result.0.now ≡ before_dot words.now }
    ensures behind { result.1.now ≡ behind_dot words.now }
{
    match words.split_once('.') {
        Some(cut) => cut,
        None => (words, ""),
    }
}

/// A body whose field 12 has an empty message under 0.
fn with_entry(alloc: Global) -> Result<Body, WordError>
    ensures value { IfOk result (λ b. body_view b ≡ entry_message) }
    ensures memory { IfErr result (λ e. e ≡ Memory) }
{
    let mut entries = BTreeMap::new(alloc);
    drop(entries.insert(MapKey::U32(0), Value::Message(empty_body(alloc)))?);
    with_field(empty_body(alloc), 12, Content::Map(entries))
}

pub(crate) fn value_by(alloc: Global, form: u8, rest: &str) -> Result<Value, WordError>
    ensures value { IfOk result (λ v. value_by form rest.now ≡ Some (value_view v)) }
    ensures refused { IfErr result (λ e. e ≡ NoMeaning → value_by form rest.now ≡ None) }
{
    match form {
        b'm' => Ok(Value::Message(flat_of(alloc, rest)?)),
        b'n' => Ok(Value::Message(nest_of(alloc, rest)?)),
        b'w' => {
            let levels = u32_of(rest)?;
            Ok(Value::Message(nest(alloc, with_entry(alloc)?, levels)?))
        }
        _ => scalar_by(alloc, form, rest),
    }
}

/// A value: a message of scalars after `m`, as `m1=i5`; messages inside each other, as many as the number after `n`, of which the innermost has
/// what follows the dot, as `n2.1=i5`; the same after `w` around an entry of field 12, as `w2`; or a scalar.
pub fn value_of(alloc: Global, word: &str) -> Result<Value, WordError>
    ensures value { IfOk result (λ v. value_word word.now ≡ Some (value_view v)) }
    ensures refused { IfErr result (λ e. e ≡ NoMeaning → value_word word.now ≡ None) }
{
    let (form, rest) = letter_of(word)?;
    value_by(alloc, form, rest)
}

fn key_in(value: Value) -> Option<MapKey>
    ensures { option_map key_view result ≡ key_in (value_view value) }
{
    match value {
        Value::I32(number) => Some(MapKey::I32(number)),
        Value::I64(number) => Some(MapKey::I64(number)),
        Value::U32(number) => Some(MapKey::U32(number)),
        Value::U64(number) => Some(MapKey::U64(number)),
        Value::Bool(truth) => Some(MapKey::Bool(truth)),
        Value::Text(text) => Some(MapKey::Text(text)),
        Value::F32(_) => None,
        Value::F64(_) => None,
        Value::Enum(_) => None,
        Value::Bytes(_) => None,
        Value::Message(_) => None,
    }
}

/// A key: a value that a map may have as one.
pub fn key_of(alloc: Global, word: &str) -> Result<MapKey, WordError>
    ensures value { IfOk result (λ k. key_word word.now ≡ Some (key_view k)) }
    ensures refused { IfErr result (λ e. e ≡ NoMeaning → key_word word.now ≡ None) }
{
    match key_in(value_of(alloc, word)?) {
        Some(key) => Ok(key),
        None => Err(WordError::NoMeaning),
    }
}
