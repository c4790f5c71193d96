//! Unknown records and bodies, read from words.

ghost use Rattle.std.specs.Prelude.{◌≡◌, ◌-◌, Some, None, IfOk, IfErr};
ghost use Rattle.pb_wire.specs.Unknown.{payload_of};
ghost use Rattle.pb_value.specs.View.{body_view};
ghost use Rattle.pb_test_types.specs.Words.{group_with, groups, payload_by, payload_word, with_record};
ghost use Rattle.pb_test_types.specs.Words.{field_onto, record_onto, word_onto, words_onto, body_words};
ghost use Rattle.pb_test_types.specs.declared.error.WordError.TheVariants.{Memory, NoMeaning};

use crate::contents::content_of;
use crate::error::WordError;
use crate::texts::{bytes_of, halves, head_of, letter_of, u32_of, u64_of};
use crate::values::with_field;
use pb_value::Body;
use pb_value::bodies::empty_body;
use pb_wire::Unknown;
use std::alloc::Global;

fn group(alloc: Global, number: u32, payload: Unknown) -> Result<Unknown, WordError>
    ensures value { IfOk result (λ u. payload_of u ≡ group_with number (payload_of payload)) }
    ensures memory { IfErr result (λ e. e ≡ Memory) }
{
    Ok(Unknown::Group(vec![in alloc; (number, payload)]?))
}

fn groups(alloc: Global, levels: u32) -> Result<Unknown, WordError>
    ensures value { IfOk result (λ u. payload_of u ≡ groups (levels - 1)) }
    ensures memory { IfErr result (λ e. e ≡ Memory) }
{
    let mut payload = Unknown::Group(Vec::new(alloc));
    for _ in 0..levels.saturating_sub(1) {
        payload = group(alloc, 1, payload)?;
    }
    Ok(payload)
}

/// The payload of an unknown record: `v` a varint, `d` eight bytes, `w` four bytes, `x` bytes in hexadecimal, `l` bytes that are the text, `g` so
/// many groups of number 1 in each other of which the innermost is empty, `a` a group that holds a 5 of this number, `o` one that holds this
/// number as its record 1.
fn payload_by(alloc: Global, form: u8, rest: &str) -> Result<Unknown, WordError>
    ensures value { IfOk result (λ u. payload_by form rest.now ≡ Some (payload_of u)) }
    ensures refused { IfErr result (λ e. e ≡ NoMeaning → payload_by form rest.now ≡ None) }
{
    match form {
        b'v' => Ok(Unknown::Varint(u64_of(rest)?)),
        b'd' => Ok(Unknown::I64(u64_of(rest)?)),
        b'w' => Ok(Unknown::I32(u32_of(rest)?)),
        b'x' => Ok(Unknown::Len(bytes_of(alloc, rest)?)),
        b'l' => Ok(Unknown::Len(String::from_str(alloc, rest)?.into_bytes())),
        b'g' => groups(alloc, u32_of(rest)?),
        b'a' => group(alloc, u32_of(rest)?, Unknown::Varint(5)),
        b'o' => group(alloc, 1, Unknown::Varint(u64_of(rest)?)),
        _ => Err(WordError::NoMeaning),
    }
}

fn unknown_of(alloc: Global, word: &str) -> Result<Unknown, WordError>
    ensures value { IfOk result (λ u. payload_word word.now ≡ Some (payload_of u)) }
    ensures refused { IfErr result (λ e. e ≡ NoMeaning → payload_word word.now ≡ None) }
{
    let (form, rest) = letter_of(word)?;
    payload_by(alloc, form, rest)
}

fn add_record(body: Body, number: u32, payload: Unknown) -> Result<Body, WordError>
    ensures value { IfOk result (λ b. body_view b
        ≡ with_record number (payload_of payload) (body_view body)) }
    ensures memory { IfErr result (λ e. e ≡ Memory) }
{
    let mut body = body;
    body.unknown.push((number, payload))?;
    Ok(body)
}

fn field_onto(alloc: Global, body: Body, number: &str, word: &str) -> Result<Body, WordError>
    ensures value { IfOk result (λ b. field_onto (body_view body) (number.now, word.now)
        ≡ Some (body_view b)) }
    ensures refused { IfErr result (λ e. e ≡ NoMeaning
        → field_onto (body_view body) (number.now, word.now) ≡ None) }
{
    let number = u32_of(number)?;
    with_field(body, number, content_of(alloc, word)?)
}

fn record_onto(alloc: Global, body: Body, number: &str, word: &str) -> Result<Body, WordError>
    ensures value { IfOk result (λ b. record_onto (body_view body) (number.now, word.now)
        ≡ Some (body_view b)) }
    ensures refused { IfErr result (λ e. e ≡ NoMeaning
        → record_onto (body_view body) (number.now, word.now) ≡ None) }
{
    let number = u32_of(number)?;
    add_record(body, number, unknown_of(alloc, word)?)
}

/// A body with one field more, as `1:i5`, or one unknown record, as `99~v7`; an empty word adds none.
fn with_word(alloc: Global, body: Body, word: &str) -> Result<Body, WordError>
    ensures value { IfOk result (λ b. word_onto (body_view body) word.now ≡ Some (body_view b)) }
    ensures refused { IfErr result (λ e. e ≡ NoMeaning
        → word_onto (body_view body) word.now ≡ None) }
{
    if word.is_empty() {
        return Ok(body);
    }
    if let Ok((number, content)) = halves(word, ':') {
        return field_onto(alloc, body, number, content);
    }
    let (number, payload) = halves(word, '~')?;
    record_onto(alloc, body, number, payload)
}

fn with_words(alloc: Global, body: Body, words: &str) -> Result<Body, WordError>
    ensures value { IfOk result (λ b. words_onto (body_view body) words.now ≡ Some (body_view b)) }
    ensures refused { IfErr result (λ e. e ≡ NoMeaning
        → words_onto (body_view body) words.now ≡ None) }
{
    let (word, more) = head_of(words, ' ');
    let body = with_word(alloc, body, word)?;
    match more {
        None => Ok(body),
        Some(more) => with_words(alloc, body, more),
    }
}

/// A body is fields as `1:i5 6:[i1,i0]` and unknown records as `99~v7`.
pub fn body_of(alloc: Global, words: &str) -> Result<Body, WordError>
    ensures value { IfOk result (λ b. body_words words.now ≡ Some (body_view b)) }
    ensures refused { IfErr result (λ e. e ≡ NoMeaning → body_words words.now ≡ None) }
{
    with_words(alloc, empty_body(alloc), words)
}
