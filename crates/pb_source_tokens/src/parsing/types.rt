//! Types of fields.

ghost use Rattle.std.specs.Prelude.{◌≡◌, ◌≤◌, ◌<◌, length, string_bytes, option_map, IfOk};
ghost use Rattle.pb_source_tokens.specs.Said.{code_said, name_said};
ghost use Rattle.pb_source_tokens.specs.Phrases.{scalar_code, found_in, key_words};
ghost use Rattle.pb_source_tokens.specs.Readers.Phrases.{type_of, type_reader, key_reader};
ghost use Rattle.pb_source_tokens.specs.PhraseView.{words_view, type_view, scalar_of_words};
ghost use Rattle.pb_source_tokens.specs.Readers.Given.{Reads, ReadsInSteps};

use crate::parsing::names::{joined, joined_behind_dot, words};
use crate::parsing::single::{begins_with_mark, mark, symbol_at};
use crate::refusal::Refusal;
use crate::symbol::{Placed, Symbol};
use pb_declarations::TypeCode;
use std::alloc::{AllocError, Global};

/// A type as it is written: a scalar, or the name of a message or an enum, with its dots.
#[derive(Drop)]
pub enum TypeSaid {
    Scalar(TypeCode),
    Named(String),
}

/// The type of a scalar's word.
fn scalar_code(word: &str) -> Option<TypeCode>
    ensures { result ≡ scalar_code word.now }
{
    match word {
        "double" => Some(TypeCode::Double),
        "float" => Some(TypeCode::Float),
        "bytes" => Some(TypeCode::Bytes),
        _ => key_code(word),
    }
}

/// The type of a word that keys may have.
fn key_code(word: &str) -> Option<TypeCode>
    ensures { result ≡ found_in key_words word.now }
{
    match word {
        "int32" => Some(TypeCode::Int32),
        "int64" => Some(TypeCode::Int64),
        "uint32" => Some(TypeCode::Uint32),
        "uint64" => Some(TypeCode::Uint64),
        "sint32" => Some(TypeCode::Sint32),
        "sint64" => Some(TypeCode::Sint64),
        "fixed32" => Some(TypeCode::Fixed32),
        "fixed64" => Some(TypeCode::Fixed64),
        "sfixed32" => Some(TypeCode::Sfixed32),
        "sfixed64" => Some(TypeCode::Sfixed64),
        "bool" => Some(TypeCode::Bool),
        "string" => Some(TypeCode::Text),
        _ => None,
    }
}

/// Reads the type of a map's keys: the word of a scalar that keys may have.
#[tactic(auto, unfolding(crate::specs::Readers::Phrases::key_reader))]
pub fn key_type(symbols: &[Placed], at: usize) -> Result<(TypeCode, usize), Refusal>
    ensures within { IfOk result (λ x. (at < x.1) × (x.1 ≤ length symbols.now)) }
    ensures read { Reads symbols.now at (λ x. x) result key_reader }
{
    if let Some(first) = symbol_at(symbols, at) {
        if let Symbol::Word(word) = &first.symbol {
            if let Some(code) = key_code(word) {
                return Ok((code, at + 1));
            }
        }
    }
    Err(Refusal::At { at, rule: None })
}

/// The type of words that are one scalar's.
fn only_scalar(words: &[&str]) -> Option<TypeCode>
    ensures { result ≡ scalar_of_words (words_view words.now) }
{
    if words.len() == 1 {
        scalar_code(words[0])
    } else {
        None
    }
}

/// The type that words mean: a scalar's word alone means the scalar.
fn type_of(alloc: Global, words: &[&str]) -> Result<TypeSaid, AllocError>
    ensures { IfOk result (λ t. type_view t ≡ type_of (words_view words.now)) }
{
    if let Some(code) = only_scalar(words) {
        return Ok(TypeSaid::Scalar(code));
    }
    let name = joined(alloc, words)?;
    Ok(TypeSaid::Named(name))
}

/// Reads a type: a scalar's word alone, or the name of a message or an enum.
#[tactic(auto, unfolding(crate::specs::Readers::Phrases::type_reader))]
pub fn typed(alloc: Global, symbols: &[Placed], at: usize) -> Result<(TypeSaid, usize), Refusal>
    ensures within { IfOk result (λ x. (at < x.1) × (x.1 ≤ length symbols.now)) }
    ensures read { ReadsInSteps symbols.now at (λ x. (type_view x.0, x.1)) result type_reader }
{
    if begins_with_mark(".", symbols, at) {
        let after = mark(".", symbols, at)?;
        let (words, after) = words(alloc, symbols, after)?;
        let name = joined_behind_dot(alloc, words.as_slice())?;
        return Ok((TypeSaid::Named(name), after));
    }
    let (words, after) = words(alloc, symbols, at)?;
    let said = type_of(alloc, words.as_slice())?;
    Ok((said, after))
}

/// Which scalar a type is; None where it is named.
pub fn code_of(ty: &TypeSaid) -> Option<TypeCode>
    ensures { result ≡ code_said (type_view ty.now) }
{
    match ty {
        TypeSaid::Scalar(code) => Some(*code),
        TypeSaid::Named(_) => None,
    }
}

/// The name of a type, as it is written; None where it is a scalar.
pub fn name_of(ty: TypeSaid) -> Option<String>
    ensures { option_map string_bytes result ≡ name_said (type_view ty) }
{
    match ty {
        TypeSaid::Scalar(_) => None,
        TypeSaid::Named(name) => Some(name),
    }
}
