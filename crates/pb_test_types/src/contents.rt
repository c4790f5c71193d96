//! Contents, read from words.

ghost use Rattle.std.specs.Prelude.{◌≡◌, ◌<◌, Some, None, IfOk, IfErr};
ghost use Rattle.pb_value.specs.View.{content_view, values_view, entries_view};
ghost use Rattle.pb_test_types.specs.Words.{element_onto, elements_onto, entry_onto, entries_onto, inside, content_by, content_word};
ghost use Rattle.pb_test_types.specs.declared.error.WordError.TheVariants.{NoMeaning};

use crate::error::WordError;
use crate::texts::{halves, head_of, letter_of};
use crate::values::{key_of, value_by, value_of};
use pb_value::{Content, MapKey, Value};
use std::alloc::Global;
use std::collections::BTreeMap;

/// Values with one more; an empty word adds none.
fn with_element(alloc: Global, values: Vec<Value>, word: &str) -> Result<Vec<Value>, WordError>
    ensures value { IfOk result (λ vs. element_onto (values_view values.items) word.now
        ≡ Some (values_view vs.items)) }
    ensures refused { IfErr result (λ e. e ≡ NoMeaning
        → element_onto (values_view values.items) word.now ≡ None) }
{
    let mut values = values;
    if !word.is_empty() {
        values.push(value_of(alloc, word)?)?;
    }
    Ok(values)
}

fn with_elements(alloc: Global, values: Vec<Value>, words: &str) -> Result<Vec<Value>, WordError>
    ensures value { IfOk result (λ vs. elements_onto (values_view values.items) words.now
        ≡ Some (values_view vs.items)) }
    ensures refused { IfErr result (λ e. e ≡ NoMeaning
        → elements_onto (values_view values.items) words.now ≡ None) }
{
    let (word, more) = head_of(words, ',');
    let values = with_element(alloc, values, word)?;
    match more {
        None => Ok(values),
        Some(more) => with_elements(alloc, values, more),
    }
}

type Entries = BTreeMap<MapKey, Value>;

/// Entries with one more, as `tk=i1`; an empty word adds none.
fn with_entry(alloc: Global, entries: Entries, word: &str) -> Result<Entries, WordError>
    ensures value { IfOk result (λ es. entry_onto (entries_view entries.entries) word.now
        ≡ Some (entries_view es.entries)) }
    ensures refused { IfErr result (λ e. e ≡ NoMeaning
        → entry_onto (entries_view entries.entries) word.now ≡ None) }
{
    let mut entries = entries;
    if !word.is_empty() {
        let (key, value) = halves(word, '=')?;
        let key = key_of(alloc, key)?;
        drop(entries.insert(key, value_of(alloc, value)?)?);
    }
    Ok(entries)
}

fn with_entries(alloc: Global, entries: Entries, words: &str) -> Result<Entries, WordError>
    ensures value { IfOk result (λ es. entries_onto (entries_view entries.entries) words.now
        ≡ Some (entries_view es.entries)) }
    ensures refused { IfErr result (λ e. e ≡ NoMeaning
        → entries_onto (entries_view entries.entries) words.now ≡ None) }
{
    let (word, more) = head_of(words, ',');
    let entries = with_entry(alloc, entries, word)?;
    match more {
        None => Ok(entries),
        Some(more) => with_entries(alloc, entries, more),
    }
}

/// The part of a word before the closing bracket at its end.
fn inside(word: &str, close: char) -> Result<&str, WordError>
    requires { close < 128 }
    ensures value { IfOk result (λ x. inside close word.now ≡ Some x.now) }
    ensures refused { IfErr result (λ e. inside close word.now ≡ None) }
{
    let (words, behind) = halves(word, close)?;
    if !behind.is_empty() {
        return Err(WordError::NoMeaning);
    }
    Ok(words)
}

fn content_by(alloc: Global, form: u8, rest: &str) -> Result<Content, WordError>
    ensures value { IfOk result (λ c. content_by form rest.now ≡ Some (content_view c)) }
    ensures refused { IfErr result (λ e. e ≡ NoMeaning → content_by form rest.now ≡ None) }
{
    match form {
        b'[' => {
            let words = inside(rest, ']')?;
            Ok(Content::List(with_elements(alloc, Vec::new(alloc), words)?))
        }
        b'{' => {
            let words = inside(rest, '}')?;
            Ok(Content::Map(with_entries(alloc, BTreeMap::new(alloc), words)?))
        }
        _ => Ok(Content::One(value_by(alloc, form, rest)?)),
    }
}

/// A list is written `[i1,i2]`, a map `{tk=i1,tl=i2}`, and anything else is one value.
pub fn content_of(alloc: Global, word: &str) -> Result<Content, WordError>
    ensures value { IfOk result (λ c. content_word word.now ≡ Some (content_view c)) }
    ensures refused { IfErr result (λ e. e ≡ NoMeaning → content_word word.now ≡ None) }
{
    let (form, rest) = letter_of(word)?;
    content_by(alloc, form, rest)
}
